// Document 01's answer numbers by name. The lowest that applies is given; docs/NUMBERS.md says when each does.
#![tactic(auto)]

ghost use Rattle.std.specs.Prelude.{◌≡◌};
ghost use Rattle.numbers.specs.Numbers.{number_of, answer_number};

use std::error::Error;
use std::fmt;

pub const DONE: u8 = 0;

// Table memory of the wrong length, a bucket count outside 1 to 256, or header or a touched bucket not sound.
pub const UNSOUND: u8 = 1;

// The millisecond is lower than at the last accepted call.
pub const CLOCK_BACK: u8 = 2;

// A datagram under 98 or over 1,280 bytes.
pub const WRONG_LENGTH: u8 = 3;

// The first 32 bytes differ from the hash of the rest; or a handed hash isn't 32 bytes.
pub const WRONG_HASH: u8 = 4;

// A key that isn't 64 bytes.
pub const WRONG_KEY: u8 = 5;

// An address that isn't 4 or 16 bytes.
pub const WRONG_ADDRESS: u8 = 6;

// The key's hash is the own hash.
pub const OWN_KEY: u8 = 7;

// A packet type outside 1 to 6.
pub const UNKNOWN_TYPE: u8 = 8;

// Data that isn't a canonical list of whole items.
pub const BROKEN_DATA: u8 = 9;

// A field missing or of the wrong kind.
pub const WRONG_FIELD: u8 = 10;

// An expiration below the Unix time.
pub const EXPIRED: u8 = 11;

// The bucket isn't kept.
pub const NOT_KEPT: u8 = 12;

// The sender of a packet of type 3 to 6 isn't verified.
pub const NOT_VERIFIED: u8 = 13;

// A pong that isn't awaited.
pub const NOT_AWAITED: u8 = 14;

// A pong that is late.
pub const LATE: u8 = 15;

// Ping sent: the node is held at another address or UDP port.
pub const HELD_ELSEWHERE: u8 = 16;

// Ping sent: a ping is already out to the node.
pub const PING_OUT: u8 = 17;

// Ping sent: a new node, and all waiting places are taken.
pub const LINE_FULL: u8 = 18;

// A room shorter than a writable value needs.
pub const SHORT_ROOM: u8 = 19;

// A value that can't be written.
pub const NOT_WRITABLE: u8 = 20;

// A line of a log that can't be read.
pub const UNREADABLE: u8 = 21;

// A line of a boot list that isn't an enode line.
pub const NOT_ENODE: u8 = 22;

// A burst of more than 32 datagrams, of lengths that don't sum to its buffer, or of lists that differ in length.
pub const NOT_WHOLE: u8 = 28;

// Why a call is refused: the answer numbers of document 01 but 0, by name. The lowest that applies is given; docs/NUMBERS.md says when each does.
#[derive(Clone, Copy, Debug, PartialEq, Eq)]
pub enum Refusal {
    // Table memory of the wrong length, a bucket count outside 1 to 256, or header or a touched bucket not sound.
    Unsound = 1,
    // The millisecond is lower than at the last accepted call.
    ClockBack = 2,
    // A datagram under 98 or over 1,280 bytes.
    WrongLength = 3,
    // The first 32 bytes differ from the hash of the rest; or a handed hash isn't 32 bytes.
    WrongHash = 4,
    // A key that isn't 64 bytes.
    WrongKey = 5,
    // An address that isn't 4 or 16 bytes.
    WrongAddress = 6,
    // The key's hash is the own hash.
    OwnKey = 7,
    // A packet type outside 1 to 6.
    UnknownType = 8,
    // Data that isn't a canonical list of whole items.
    BrokenData = 9,
    // A field missing or of the wrong kind.
    WrongField = 10,
    // An expiration below the Unix time.
    Expired = 11,
    // The bucket isn't kept.
    NotKept = 12,
    // The sender of a packet of type 3 to 6 isn't verified.
    NotVerified = 13,
    // A pong that isn't awaited.
    NotAwaited = 14,
    // A pong that is late.
    Late = 15,
    // Ping sent: the node is held at another address or UDP port.
    HeldElsewhere = 16,
    // Ping sent: a ping is already out to the node.
    PingOut = 17,
    // Ping sent: a new node, and all waiting places are taken.
    LineFull = 18,
    // A room shorter than a writable value needs.
    ShortRoom = 19,
    // A value that can't be written.
    NotWritable = 20,
    // A line of a log that can't be read.
    Unreadable = 21,
    // A line of a boot list that isn't an enode line.
    NotEnode = 22,
    // A burst of more than 32 datagrams, of lengths that don't sum to its buffer, or of lists that differ in length.
    NotWhole = 28,
}

impl Refusal {
    // The answer number.
    pub fn number(self) -> u8
        ensures { result ≡ number_of self }
    {
        self as u8
    }
}

impl fmt::Display for Refusal {
    fn fmt<W: fmt::Write>(&self, f: &mut fmt::Formatter<W>) -> fmt::Result {
        f.write_str(match self {
            Refusal::Unsound => "the table's memory is damaged or of the wrong size",
            Refusal::ClockBack => "the box's clock went back",
            Refusal::WrongLength => "the datagram is too short or too long",
            Refusal::WrongHash => "the hash does not fit",
            Refusal::WrongKey => "no key of 64 bytes",
            Refusal::WrongAddress => "no address of 4 or 16 bytes",
            Refusal::OwnKey => "the node's own key",
            Refusal::UnknownType => "a packet of unknown type",
            Refusal::BrokenData => "the packet's data is broken",
            Refusal::WrongField => "a field is missing or wrong",
            Refusal::Expired => "the packet has expired",
            Refusal::NotKept => "too near to the own node for a table of this size",
            Refusal::NotVerified => "the sender has not proved its address",
            Refusal::NotAwaited => "a pong that nobody asked for",
            Refusal::Late => "the pong came too late",
            Refusal::HeldElsewhere => "the node is known at another address",
            Refusal::PingOut => "a ping to the node is still out",
            Refusal::LineFull => "the waiting line is full",
            Refusal::ShortRoom => "the room is too small",
            Refusal::NotWritable => "the value can't be written",
            Refusal::Unreadable => "the log's line is not readable",
            Refusal::NotEnode => "no enode line",
            Refusal::NotWhole => "the burst's lists don't fit together",
        })
    }
}

impl Error for Refusal {}

// The answer number of a call that gives nothing else: 0 where it is accepted.
pub fn answer_number(answer: Result<(), Refusal>) -> u8
    ensures { result ≡ answer_number answer }
{
    match answer {
        Ok(()) => DONE,
        Err(refusal) => refusal.number(),
    }
}

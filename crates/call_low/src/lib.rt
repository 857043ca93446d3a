// The calls with a clock, by a reading of 32 bits: the table's clock makes it the full one, once for all of them, and the call is the one with
// that clock. For any bytes.
#![tactic(auto)]

ghost use Rattle.std.specs.Prelude.{◌≡◌, not};
ghost use Rattle.numbers.specs.Numbers.{number_of, answer_number};
ghost use Rattle.table_model.specs.Layout.{clock_of};
ghost use Rattle.table_model.specs.Sound.{table_sound};
ghost use Rattle.call_history.specs.Model as model;
ghost use Rattle.call_model.specs.Calls.{unsound_for};
ghost use Rattle.call_model.specs.Reading.{reading};
ghost use Rattle.call_low.specs.Got.{full_clock, answer_low, bytes_low, received_low};
ghost use Rattle.call_low.specs.Steps.{low_clock, back_number};

use call_answer::{Outcome, Received};
use call_touched::Reach;
use clock32::LowMillis;
use node::{MonotonicMillis, UnixSeconds};
use numbers::Refusal;
use std::fmt;

// Why a reading gives no clock on a table.
#[derive(Clone, Copy, Debug, PartialEq, Eq)]
pub enum ClockError {
    // Answer 1: the table has no clock.
    Unsound,
    // The reading counts as going back: answer 2, or 1 of what the call touches.
    Back,
}

impl fmt::Display for ClockError {
    fn fmt<W: fmt::Write>(&self, f: &mut fmt::Formatter<W>) -> fmt::Result {
        match self {
            ClockError::Unsound => write!(f, "the table has no clock"),
            ClockError::Back => write!(f, "the reading counts as going back"),
        }
    }
}

// The full clock by the clock that stands in the table, which is the last accepted call's; the rest of the header isn't looked at.
fn low_clock(table: &[u8], reading: LowMillis) -> Result<MonotonicMillis, ClockError>
    ensures { result ≡ low_clock table.now reading.0 }
{
    if table.len() < table::HEADER_SIZE {
        return Err(ClockError::Unsound);
    }
    let last = table::clock(table);
    clock32::widen(reading, last).ok_or(ClockError::Back)
}

// The full clock of a reading.
pub fn full_clock(table: &[u8], reading: LowMillis) -> Result<MonotonicMillis, ClockError>
    ensures { result ≡ full_clock table.now reading.0 }
{
    if !table::header_sound(table) {
        return Err(ClockError::Unsound);
    }
    low_clock(table, reading)
}

// Why a call with this key is refused whose reading went back.
pub fn back_number(table: &[u8], key: &[u8]) -> Refusal
    ensures { number_of result ≡ back_number (unsound_for reading table.now key.now) }
{
    let reached = call_touched::reached_by(table, key);
    match reached {
        Reach::Unsound => Refusal::Unsound,
        Reach::At(_) => Refusal::ClockBack,
    }
}

// The same of a sweep, which touches all.
pub fn back_number_of_all(table: &[u8]) -> Refusal
    ensures { number_of result ≡ back_number (not (table_sound table.now)) }
{
    if table_sound::sound(table) {
        Refusal::ClockBack
    } else {
        Refusal::Unsound
    }
}

// ---- the calls. What a call touches is tested once: 1 comes from the 64-bit call, or from `back_number`.

// A datagram came, at this reading.
pub fn datagram_low_on(
    table: &mut [u8],
    reading: LowMillis,
    unix: UnixSeconds,
    address: &[u8],
    port: u16,
    signer: &[u8],
    datagram: &[u8],
) -> Received
    ensures value { result ≡ received_low table.old reading.0 unix.0 address.now port signer.now datagram.now }
    ensures table_after { table.new ≡ bytes_low table.old (model.datagram reading.0 unix.0 address.now port signer.now datagram.now) }
{
    match low_clock(table, reading) {
        Err(ClockError::Unsound) => call_answer::plain(Outcome::Refused(Refusal::Unsound.number())),
        Err(ClockError::Back) => {
            let refusal = back_number(table, signer);
            call_answer::plain(Outcome::Refused(refusal.number()))
        }
        Ok(clock) => call_datagram::datagram_on(
            table, clock, unix, address, port, signer, datagram,
        ),
    }
}

// A ping with this hash went out to a node, at this reading.
pub fn ping_sent_low_on(
    table: &mut [u8],
    reading: LowMillis,
    key: &[u8],
    address: &[u8],
    udp: u16,
    tcp: u16,
    hash: &[u8],
) -> Result<(), Refusal>
    ensures value { answer_number result ≡ answer_low table.old (model.ping_sent reading.0 key.now address.now udp tcp hash.now) }
    ensures table_after { table.new ≡ bytes_low table.old (model.ping_sent reading.0 key.now address.now udp tcp hash.now) }
{
    match low_clock(table, reading) {
        Err(ClockError::Unsound) => Err(Refusal::Unsound),
        Err(ClockError::Back) => Err(back_number(table, key)),
        Ok(clock) => call_ping_sent::ping_sent_on(table, clock, key, address, udp, tcp, hash),
    }
}

// A sweep at this reading.
pub fn sweep_low_on(table: &mut [u8], reading: LowMillis) -> Result<(), Refusal>
    ensures value { answer_number result ≡ answer_low table.old (model.sweep reading.0) }
    ensures table_after { table.new ≡ bytes_low table.old (model.sweep reading.0) }
{
    match low_clock(table, reading) {
        Err(ClockError::Unsound) => Err(Refusal::Unsound),
        Err(ClockError::Back) => Err(back_number_of_all(table)),
        Ok(clock) => call_sweep::sweep_on(table, clock),
    }
}

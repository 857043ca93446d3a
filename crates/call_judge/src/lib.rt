// The tests of a datagram before its sender's bucket is asked, in document 01's order: 1 to 12.
#![tactic(auto)]

ghost use Rattle.std.specs.Prelude.{◌≡◌, ◌≤◌, length};
ghost use Rattle.numbers.specs.Numbers.{answer_number};
ghost use Rattle.lists.specs.Lists.{first};
ghost use Rattle.table_model.specs.Layout.{clock_of};
ghost use Rattle.call_touched.specs.Steps.{HasHeader};
ghost use Rattle.call_judge.specs.Steps.{judged_at, judged_on, datagram_tests, kept_slot, after_reading};

use call_touched::Reach;
use node::{MonotonicMillis, UnixSeconds};
use numbers::Refusal;
use packet::{Packet, Parsed};
use table::Touched;

// What the tests before the bucket's own find of a datagram.
#[derive(Clone, Copy)]
pub enum Judged {
    // The answer number, from 1 to 12.
    Refused(u8),
    // The slot of the sender's bucket, and the packet.
    Passed(usize, Packet),
}

// Refuses a datagram with 2 to 7.
fn datagram_number(
    table: &[u8],
    clock: MonotonicMillis,
    datagram: &[u8],
    touched: Touched,
    address: &[u8],
) -> Result<(), Refusal>
    requires { 512 ≤ length table.now }
    ensures { answer_number result ≡ first (datagram_tests (clock_of table.now) clock.0 datagram.now touched address.now) }
{
    let last = table::clock(table);
    if clock.0 < last.0 {
        return Err(Refusal::ClockBack);
    }
    if !packet_envelope::is_sized(datagram) {
        return Err(Refusal::WrongLength);
    }
    if !packet_envelope::hash_matches(datagram) {
        return Err(Refusal::WrongHash);
    }
    call_touched::key_number(touched, address)
}

// Answer 12, or what the sender's bucket is to get.
fn kept_slot(touched: Touched, packet: Packet) -> Judged
    ensures { result ≡ kept_slot touched packet }
{
    match call_touched::kept_place(touched) {
        Ok(slot) => Judged::Passed(slot, packet),
        Err(refusal) => Judged::Refused(refusal.number()),
    }
}

// Answers 8 to 12, or what the sender's bucket is to get.
fn after_reading(touched: Touched, parsed: Parsed) -> Judged
    ensures { result ≡ after_reading touched parsed }
{
    match parsed {
        Parsed::Packet(packet) => kept_slot(touched, packet),
        Parsed::Refused(n) => Judged::Refused(n),
    }
}

// Answers 2 to 12 of a datagram, or what the sender's bucket is to get.
fn judge_at(
    table: &[u8],
    clock: MonotonicMillis,
    unix: UnixSeconds,
    datagram: &[u8],
    touched: Touched,
    address: &[u8],
) -> Judged
    requires { 512 ≤ length table.now }
    ensures { result ≡ judged_at (clock_of table.now) clock.0 unix datagram.now touched address.now }
{
    match datagram_number(table, clock, datagram, touched, address) {
        Ok(()) => after_reading(touched, packet_datagram::read(datagram, unix)),
        Err(refusal) => Judged::Refused(refusal.number()),
    }
}

// Answers 1 to 12 of a datagram whose signer's key leads to `reach`, or what the sender's bucket is to get.
pub fn judge(
    table: &[u8],
    reach: Reach,
    clock: MonotonicMillis,
    unix: UnixSeconds,
    address: &[u8],
    datagram: &[u8],
) -> Judged
    requires { HasHeader table.now reach }
    ensures { result ≡ judged_on (clock_of table.now) clock.0 unix datagram.now reach address.now }
{
    match reach {
        Reach::Unsound => Judged::Refused(numbers::UNSOUND),
        Reach::At(touched) => judge_at(table, clock, unix, datagram, touched, address),
    }
}

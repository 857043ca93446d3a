// One datagram of a burst: handed over at its milliseconds, and its number written into a lent list.
#![tactic(auto)]

ghost use Rattle.std.specs.Prelude.{◌≡◌, ◌+◌, ◌*◌, ◌≤◌, ◌<◌, length, get_or, set};
ghost use Rattle.call_burst_lists.specs.Times.{times_by, lent_by};
ghost use Rattle.call_history.specs.Model as model;
ghost use Rattle.call_burst_step.specs.Datagram.{call_at};
ghost use Rattle.call_burst_step.specs.Steps.{answer_by, bytes_by, time_at, is_reading, number_in};

use clock32::LowMillis;
use node::{MonotonicMillis, UnixSeconds};

// The milliseconds of a datagram: full, or a reading of 32 bits.
#[derive(Clone, Copy)]
pub enum Time {
    Full(MonotonicMillis),
    Reading(LowMillis),
}

// The milliseconds of datagram `i`.
fn time_at(millis: &[u64], readings: &[u32], i: usize, low: bool) -> Time
    requires { i < length (times_by low millis.now readings.now) }
    ensures { result ≡ time_at low millis.now readings.now i }
{
    if low {
        return Time::Reading(LowMillis(readings[i]));
    }
    Time::Full(MonotonicMillis(millis[i]))
}

// A datagram at its milliseconds. The answer number.
fn receive(
    table: &mut [u8],
    time: Time,
    unix: UnixSeconds,
    address: &[u8],
    port: u16,
    signer: &[u8],
    datagram: &[u8],
) -> u8
    ensures value { result ≡ answer_by (is_reading time) table.old (model.datagram (number_in time) unix.0 address.now port signer.now datagram.now) }
    ensures table_after { table.new ≡ bytes_by (is_reading time) table.old (model.datagram (number_in time) unix.0 address.now port signer.now datagram.now) }
{
    match time {
        Time::Full(clock) => {
            let received = call_datagram::datagram_on(
                table, clock, unix, address, port, signer, datagram,
            );
            call_answer::number(received)
        }
        Time::Reading(reading) => {
            let received = call_low::datagram_low_on(
                table, reading, unix, address, port, signer, datagram,
            );
            call_answer::number(received)
        }
    }
}

// Hands over datagram `i`, whose bytes begin at index `at`, and writes its number.
pub fn hand_over(
    table: &mut [u8],
    numbers: &mut [u8],
    buffer: &[u8],
    lengths: &[usize],
    signers: &[u8],
    addresses: &[u8],
    ports: &[u16],
    millis: &[u64],
    readings: &[u32],
    unix: &[u64],
    i: usize,
    at: usize,
    low: bool,
)
    requires i_bound { (i < 32) × (i < length numbers.old) × (i < length lengths.now) × (at + get_or lengths.now i 0 ≤ length buffer.now) }
    requires i_in_bounds { (64 * i + 64 ≤ length signers.now) × (17 * i + 17 ≤ length addresses.now) }
    requires i_in_bounds_2 { (i < length ports.now) × (i < length (times_by low millis.now readings.now)) × (i < length unix.now) }
    ensures table_after { table.new ≡ bytes_by low table.old (call_at (lent_by low buffer.now lengths.now signers.now addresses.now ports.now millis.now readings.now unix.now) i at) }
    ensures numbers_after { numbers.new ≡ set numbers.old i (answer_by low table.old (call_at (lent_by low buffer.now lengths.now signers.now addresses.now ports.now millis.now readings.now unix.now) i at)) }
{
    let end = at + lengths[i];
    numbers[i] = receive(
        table,
        time_at(millis, readings, i, low),
        UnixSeconds(unix[i]),
        call_burst_lists::address_at(addresses, i),
        ports[i],
        call_burst_lists::signer_at(signers, i),
        &buffer[at..end],
    );
}

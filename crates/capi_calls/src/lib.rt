// The calls on a lent table with clocks and readings as plain numbers, and the answer to a datagram as a code.
#![tactic(auto)]

ghost use Rattle.std.specs.Prelude.{◌≡◌};
ghost use Rattle.call_history.specs.Model as model;
ghost use Rattle.call_model.specs.Calls.{answer_on, bytes_after};
ghost use Rattle.call_model.specs.Reading.{reading};
ghost use Rattle.call_datagram.specs.Received.{received};
ghost use Rattle.call_low.specs.Got.{full_clock_number, answer_low, bytes_low, received_low};
ghost use Rattle.capi_codes.specs.Codes.{received_code};
ghost use Rattle.capi_calls.specs.Told.{told_clock};

use call_low::ClockError;
use clock32::LowMillis;
use node::{MonotonicMillis, UnixSeconds};

// A datagram came. The code of its answer.
pub fn datagram_on(
    table: &mut [u8],
    clock: u64,
    unix: u64,
    address: &[u8],
    port: u16,
    signer: &[u8],
    datagram: &[u8],
) -> u32
    ensures value { result ≡ received_code (received table.old clock unix address.now port signer.now datagram.now) }
    ensures table_after { table.new ≡ bytes_after reading table.old (model.datagram clock unix address.now port signer.now datagram.now) }
{
    let received = call_datagram::datagram_on(
        table,
        MonotonicMillis(clock),
        UnixSeconds(unix),
        address,
        port,
        signer,
        datagram,
    );
    let outcome = received.outcome;
    capi_codes::outcome_code(outcome)
}

// A ping went out to a node. The answer number.
pub fn ping_sent_on(
    table: &mut [u8],
    clock: u64,
    key: &[u8],
    address: &[u8],
    udp: u16,
    tcp: u16,
    hash: &[u8],
) -> u8
    ensures value { result ≡ answer_on reading table.old (model.ping_sent clock key.now address.now udp tcp hash.now) }
    ensures table_after { table.new ≡ bytes_after reading table.old (model.ping_sent clock key.now address.now udp tcp hash.now) }
{
    numbers::answer_number(call_ping_sent::ping_sent_on(
        table,
        MonotonicMillis(clock),
        key,
        address,
        udp,
        tcp,
        hash,
    ))
}

// The answer number of a sweep.
pub fn sweep_on(table: &mut [u8], clock: u64) -> u8
    ensures value { result ≡ answer_on reading table.old (model.sweep clock) }
    ensures table_after { table.new ≡ bytes_after reading table.old (model.sweep clock) }
{
    numbers::answer_number(call_sweep::sweep_on(table, MonotonicMillis(clock)))
}

// ---- by a reading of 32 bits

// A datagram came. The code of its answer.
pub fn datagram_low_on(
    table: &mut [u8],
    reading: u32,
    unix: u64,
    address: &[u8],
    port: u16,
    signer: &[u8],
    datagram: &[u8],
) -> u32
    ensures value { result ≡ received_code (received_low table.old reading unix address.now port signer.now datagram.now) }
    ensures table_after { table.new ≡ bytes_low table.old (model.datagram reading unix address.now port signer.now datagram.now) }
{
    let received = call_low::datagram_low_on(
        table,
        LowMillis(reading),
        UnixSeconds(unix),
        address,
        port,
        signer,
        datagram,
    );
    let outcome = received.outcome;
    capi_codes::outcome_code(outcome)
}

// A ping went out to a node. The answer number.
pub fn ping_sent_low_on(
    table: &mut [u8],
    reading: u32,
    key: &[u8],
    address: &[u8],
    udp: u16,
    tcp: u16,
    hash: &[u8],
) -> u8
    ensures value { result ≡ answer_low table.old (model.ping_sent reading key.now address.now udp tcp hash.now) }
    ensures table_after { table.new ≡ bytes_low table.old (model.ping_sent reading key.now address.now udp tcp hash.now) }
{
    numbers::answer_number(call_low::ping_sent_low_on(
        table,
        LowMillis(reading),
        key,
        address,
        udp,
        tcp,
        hash,
    ))
}

// The answer number of a sweep.
pub fn sweep_low_on(table: &mut [u8], reading: u32) -> u8
    ensures value { result ≡ answer_low table.old (model.sweep reading) }
    ensures table_after { table.new ≡ bytes_low table.old (model.sweep reading) }
{
    numbers::answer_number(call_low::sweep_low_on(table, LowMillis(reading)))
}

// The answer number of a full clock. Writes the clock.
pub fn tell_clock(told: &mut [u64; 1], clock: Result<MonotonicMillis, ClockError>) -> u8
    ensures { (result ≡ full_clock_number clock) × (told.new ≡ told_clock clock told.old) }
{
    match clock {
        Err(ClockError::Unsound) => numbers::UNSOUND,
        Err(ClockError::Back) => numbers::CLOCK_BACK,
        Ok(t) => {
            *told = [t.0];
            numbers::DONE
        }
    }
}

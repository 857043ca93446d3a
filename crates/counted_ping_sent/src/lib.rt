// The ping-sent call of the public library: it works on the lent table, counts its answer number in the lent counters, and answers.
#![tactic(auto)]

ghost use Rattle.std.specs.Prelude.{◌≡◌};
ghost use Rattle.numbers.specs.Numbers.{answer_number};
ghost use Rattle.call_history.specs.Model as model;
ghost use Rattle.call_model.specs.Calls.{answer_on, bytes_after};
ghost use Rattle.call_model.specs.Reading.{reading};
ghost use Rattle.counters.specs.Counters.{raised};

use counters::{CountedNumber, Counters};
use node::MonotonicMillis;
use numbers::Refusal;

// A ping with this hash went out to a node.
pub fn ping_sent(
    counters: &mut Counters,
    table: &mut [u8],
    clock: MonotonicMillis,
    key: &[u8],
    address: &[u8],
    udp: u16,
    tcp: u16,
    hash: &[u8],
) -> Result<(), Refusal>
    ensures value { answer_number result ≡ answer_on reading table.old (model.ping_sent clock.0 key.now address.now udp tcp hash.now) }
    ensures table_after { table.new ≡ bytes_after reading table.old (model.ping_sent clock.0 key.now address.now udp tcp hash.now) }
    ensures counters_after { counters.new ≡ raised counters.old (answer_number result) }
{
    let answer = call_ping_sent::ping_sent_on(table, clock, key, address, udp, tcp, hash);
    counters::count(counters, numbers::answer_number(answer));
    answer
}

// The same call with the counters by value, for callers inside the repository.
pub fn ping_sent_with(
    counters: Counters,
    table: &mut [u8],
    clock: MonotonicMillis,
    key: &[u8],
    address: &[u8],
    udp: u16,
    tcp: u16,
    hash: &[u8],
) -> CountedNumber
    ensures number_value { result.number ≡ answer_on reading table.old (model.ping_sent clock.0 key.now address.now udp tcp hash.now) }
    ensures table_after { table.new ≡ bytes_after reading table.old (model.ping_sent clock.0 key.now address.now udp tcp hash.now) }
    ensures counters_value { result.counters ≡ raised counters result.number }
{
    let mut after = counters;
    let answer = ping_sent(&mut after, table, clock, key, address, udp, tcp, hash);
    CountedNumber {
        number: numbers::answer_number(answer),
        counters: after,
    }
}

// The ping-sent call of the public library by a reading of 32 bits: it works on the lent table, counts its answer number in the lent counters, and
// answers.
#![tactic(auto)]

ghost use Rattle.std.specs.Prelude.{◌≡◌};
ghost use Rattle.numbers.specs.Numbers.{answer_number};
ghost use Rattle.call_history.specs.Model as model;
ghost use Rattle.call_low.specs.Got.{answer_low, bytes_low};
ghost use Rattle.counters.specs.Counters.{raised};

use clock32::LowMillis;
use counters::Counters;
use numbers::Refusal;

// A ping with this hash went out to a node.
pub fn ping_sent_low(
    counters: &mut Counters,
    table: &mut [u8],
    reading: LowMillis,
    key: &[u8],
    address: &[u8],
    udp: u16,
    tcp: u16,
    hash: &[u8],
) -> Result<(), Refusal>
    ensures value { answer_number result ≡ answer_low table.old (model.ping_sent reading.0 key.now address.now udp tcp hash.now) }
    ensures table_after { table.new ≡ bytes_low table.old (model.ping_sent reading.0 key.now address.now udp tcp hash.now) }
    ensures counters_after { counters.new ≡ raised counters.old (answer_number result) }
{
    let answer = call_low::ping_sent_low_on(table, reading, key, address, udp, tcp, hash);
    counters::count(counters, numbers::answer_number(answer));
    answer
}

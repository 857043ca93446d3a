// The sweep call of the public library by a reading of 32 bits: it works on the lent table, counts its answer number in the lent counters, and
// answers.
#![tactic(auto)]

ghost use Rattle.std.specs.Prelude.{◌≡◌};
ghost use Rattle.numbers.specs.Numbers.{answer_number};
ghost use Rattle.call_history.specs.Model as model;
ghost use Rattle.call_low.specs.Got.{answer_low, bytes_low};
ghost use Rattle.counters.specs.Counters.{raised};

use clock32::LowMillis;
use counters::Counters;
use numbers::Refusal;

// Nodes that did not answer in time go, then replacements with an expired proof, and proved replacements take free entries.
pub fn sweep_low(
    counters: &mut Counters,
    table: &mut [u8],
    reading: LowMillis,
) -> Result<(), Refusal>
    ensures value { answer_number result ≡ answer_low table.old (model.sweep reading.0) }
    ensures table_after { table.new ≡ bytes_low table.old (model.sweep reading.0) }
    ensures counters_after { counters.new ≡ raised counters.old (answer_number result) }
{
    let answer = call_low::sweep_low_on(table, reading);
    counters::count(counters, numbers::answer_number(answer));
    answer
}

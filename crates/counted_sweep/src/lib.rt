// The sweep call of the public library: it works on the lent table, counts its answer number in the lent counters, and answers.
#![tactic(auto)]

ghost use Rattle.std.specs.Prelude.{◌≡◌};
ghost use Rattle.numbers.specs.Numbers.{answer_number};
ghost use Rattle.call_history.specs.Model as model;
ghost use Rattle.call_model.specs.Calls.{answer_on, bytes_after};
ghost use Rattle.call_model.specs.Reading.{reading};
ghost use Rattle.counters.specs.Counters.{raised};

use counters::{CountedNumber, Counters};
use node::MonotonicMillis;
use numbers::Refusal;

// Nodes that did not answer in time go, then replacements with an expired proof, and proved replacements take free entries.
pub fn sweep(
    counters: &mut Counters,
    table: &mut [u8],
    clock: MonotonicMillis,
) -> Result<(), Refusal>
    ensures value { answer_number result ≡ answer_on reading table.old (model.sweep clock.0) }
    ensures table_after { table.new ≡ bytes_after reading table.old (model.sweep clock.0) }
    ensures counters_after { counters.new ≡ raised counters.old (answer_number result) }
{
    let answer = call_sweep::sweep_on(table, clock);
    counters::count(counters, numbers::answer_number(answer));
    answer
}

// The same call with the counters by value, for callers inside the repository.
pub fn sweep_with(counters: Counters, table: &mut [u8], clock: MonotonicMillis) -> CountedNumber
    ensures number_value { result.number ≡ answer_on reading table.old (model.sweep clock.0) }
    ensures table_after { table.new ≡ bytes_after reading table.old (model.sweep clock.0) }
    ensures counters_value { result.counters ≡ raised counters result.number }
{
    let mut after = counters;
    let answer = sweep(&mut after, table, clock);
    CountedNumber {
        number: numbers::answer_number(answer),
        counters: after,
    }
}

// A 32-bit reading of the box clock, widened by the table's clock (document 02, C-20).
#![tactic(auto)]

ghost use Rattle.std.specs.Prelude.{◌≡◌};
ghost use Rattle.clock32.specs.Widened.{widened};

use node::MonotonicMillis;

// The box clock as a counter of 32 bits reads it, which rolls over.
#[derive(Clone, Copy)]
pub struct LowMillis(pub u32);

// The difference of the reading and the clock's low 32 bits, taken round the rollover, is added to the clock if it is below 2^31. Otherwise
// the reading counts as going back (answer 2), as does a sum past 64 bits.
pub fn widen(reading: LowMillis, clock: MonotonicMillis) -> Option<MonotonicMillis>
    ensures { result ≡ widened clock.0 reading.0 }
{
    let low = (clock.0 % 4294967296) as u32;
    let step = reading.0.wrapping_sub(low);
    if 2147483648 <= step {
        return None;
    }
    let wide = clock.0.checked_add(u64::from(step))?;
    Some(MonotonicMillis(wide))
}

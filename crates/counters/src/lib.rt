// The counters: one count for each answer number, lent by the caller and counted up in place.
#![tactic(auto)]

ghost use Rattle.std.specs.Prelude.{◌≡◌};
ghost use Rattle.counters.specs.Counters.{raised, count_of};
ghost use Rattle.counters.specs.Counters as spec;

// Document 01's tally: the calls since clearing that gave each answer number from 0 to 21.
#[repr(C)]
#[derive(Clone, Copy)]
pub struct Counters {
    pub counts: [u32; 22],
}

// The answer number of a call, and the counters after it.
#[derive(Clone, Copy)]
pub struct CountedNumber {
    pub number: u8,
    pub counters: Counters,
}

// Counters with every count 0: assign them to clear lent ones.
pub fn cleared() -> Counters
    ensures { result ≡ spec.cleared }
{
    Counters { counts: [0; 22] }
}

// The count of an answer number; 0 for a number that has none.
pub fn count_of(counters: Counters, number: u8) -> u32
    ensures { result ≡ count_of counters number }
{
    let at = number as usize;
    if 22 <= at {
        return 0;
    }
    counters.counts[at]
}

// The counters with the count of one answer number raised by one. A count of 4,294,967,295 stays, and so does every count where
// the number has none.
pub fn raise(counters: Counters, number: u8) -> Counters
    ensures { result ≡ raised counters number }
{
    let at = number as usize;
    if 22 <= at {
        return counters;
    }
    let old = counters.counts[at];
    if 4294967295 <= old {
        return counters;
    }
    let mut next = counters;
    next.counts[at] = old + 1;
    next
}

// Counts one answer in the counters that the caller lends.
pub fn count(counters: &mut Counters, number: u8)
    ensures { counters.new ≡ raised counters.old number }
{
    *counters = raise(*counters, number);
}

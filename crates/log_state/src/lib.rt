// The state of a replay: the table is the first bytes of a lent memory, and a line's answer is written into lent bytes.
#![tactic(auto)]

ghost use Rattle.std.specs.Prelude.{◌≡◌, false, ◌≤◌};
ghost use Rattle.log_state.specs.State.{size_of};

use bucket::Bucket;

// The bytes that a table of 16 buckets takes, the most of a replayed table.
pub const MEMORY: usize = 46304;

// `owned`: a well-formed `own` has come. `count`: the buckets of the table, 0 where no `own` was accepted.
#[derive(Clone, Copy)]
pub struct Replay {
    pub owned: bool,
    pub count: usize,
}

// A line was answered with `len` bytes.
#[derive(Clone, Copy)]
pub struct Stepped {
    pub replay: Replay,
    pub len: usize,
}

impl Replay {
    // Before the first line.
    pub fn new() -> Self
        ensures { result ≡ record { owned = false; count = 0 } }
    {
        Replay {
            owned: false,
            count: 0,
        }
    }

    // The bytes of the table.
    pub fn size(self) -> usize
        requires { self.count ≤ 16 }
        ensures size { result ≡ size_of self.count }
        ensures most { result ≤ 46304 }
    {
        let count = self.count;
        if count == 0 {
            return 0;
        }
        table::HEADER_SIZE + count * Bucket::SIZE
    }
}

// The output of the replay program: gathered in a buffer, and written to standard output when the next answer might find no room.
#![tactic(auto)]

ghost use Rattle.std.specs.Prelude.{◌+◌, ◌≤◌, length};
ghost use Rattle.log_answer.specs.AnswerRows.{answer_room};

// Where the next answer goes, and whether a write before it failed.
#[derive(Clone, Copy)]
pub struct Room {
    pub at: usize,
    pub lost: bool,
}

// Whether all was written. A failure is reported.
pub fn write_out(rt: &(impl Print + Eprint), bytes: &[u8]) -> bool {
    match rt.write_all(bytes) {
        Ok(()) => true,
        Err(error) => {
            programs::fail(rt, "standard output", &error);
            false
        }
    }
}

// Room for the next answer: the output is written out where it might find none.
pub fn make_room(rt: &(impl Print + Eprint), out: &[u8], used: usize) -> Room
    requires { (65536 ≤ length out.now) × (used ≤ length out.now) }
    ensures { result.at + answer_room ≤ length out.now }
{
    if used <= 65472 {
        return Room {
            at: used,
            lost: false,
        };
    }
    let written = write_out(rt, &out[0..used]);
    Room {
        at: 0,
        lost: !written,
    }
}

// The lines of a log that comes in chunks of any size. A line of at most 3,000 bytes is kept in a lent buffer, and of a longer one only that it is.
#![tactic(auto)]

ghost use Rattle.std.specs.Prelude.{◌≡◌, ◌≤◌, length};
ghost use Rattle.log_lines.specs.Lines.{limit};
ghost use Rattle.log_lines.specs.Steps.{grown, added, step_of, buffer_after, last_of};
ghost use Rattle.log_lines.specs.Steps as spec;

use octets::put_bytes;
use text::find;

// The most bytes of a line, without its 0A.
pub const LIMIT: usize = 3000;

// The line begun: its `len` bytes are the first of the buffer, or it is over the limit.
#[derive(Clone, Copy)]
pub struct Begun {
    pub len: usize,
    pub over: bool,
}

impl Begun {
    // No line is begun.
    pub fn new() -> Self
        ensures { result ≡ spec.fresh }
    {
        Begun {
            len: 0,
            over: false,
        }
    }
}

// What a step finds. After a line that ended, `Begun::new()` is the line begun.
#[derive(Clone, Copy)]
pub enum Step {
    // A line of `len` bytes is in the buffer, and the chunk goes on at `next`.
    Line { len: usize, next: usize },
    // A line over the limit ended, and the chunk goes on at `next`.
    TooLong { next: usize },
    // The chunk has ended, and its last line goes on in the next one.
    More(Begun),
}

// What is left at the log's end.
#[derive(Clone, Copy)]
pub enum Last {
    // A line without 0A, of `len` bytes in the buffer.
    Line { len: usize },
    // A line without 0A, over the limit.
    TooLong,
    Nothing,
}

// The line begun with a piece more, which is stored where it finds room.
fn add_piece(buffer: &mut [u8], begun: Begun, piece: &[u8]) -> Begun
    requires { (limit ≤ length buffer.old) × (begun.len ≤ limit) }
    ensures begun { result ≡ grown begun (length piece.now) }
    ensures bytes { buffer.new ≡ added buffer.old begun piece.now }
{
    if begun.over {
        return Begun { len: 0, over: true };
    }
    let len = begun.len;
    if LIMIT - len < piece.len() {
        return Begun { len: 0, over: true };
    }
    put_bytes(buffer, len, piece);
    Begun {
        len: len + piece.len(),
        over: false,
    }
}

// Takes the bytes of `chunk` from `at` up to the next 0A, or to its end.
pub fn next_line(buffer: &mut [u8], begun: Begun, chunk: &[u8], at: usize) -> Step
    requires { (limit ≤ length buffer.old) × ((begun.len ≤ limit) × (at ≤ length chunk.now)) }
    ensures step { result ≡ step_of begun chunk.now at }
    ensures bytes { buffer.new ≡ buffer_after buffer.old begun chunk.now at }
{
    let end = find(chunk, at, b'\n');
    let more = add_piece(buffer, begun, &chunk[at..end]);
    if end == chunk.len() {
        return Step::More(more);
    }
    if more.over {
        return Step::TooLong { next: end + 1 };
    }
    Step::Line {
        len: more.len,
        next: end + 1,
    }
}

// What is left of the line begun at the log's end.
pub fn last_line(begun: Begun) -> Last
    ensures { result ≡ last_of begun }
{
    if begun.over {
        return Last::TooLong;
    }
    let len = begun.len;
    if len == 0 {
        return Last::Nothing;
    }
    Last::Line { len }
}

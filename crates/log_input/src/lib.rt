// The lines of an input, read in chunks and handed over one after the other. Of a line over the limit only that it came is told.
#![tactic(auto)]

ghost use Rattle.std.specs.Prelude.{◌≤◌, length, IfSome};
ghost use Rattle.log_input.specs.Sizes.{IsKept};
ghost use Rattle.log_input.specs.Ends.{Ends};

use log_lines::{Begun, Last, Step};
use std::io::Read;

// What the lines are handed to. Each function tells whether more lines are wanted.
pub trait Lines {
    // What holds from line to line.
    ghost ready: { Self → Type 0 };

    // Takes a line, without its 0A.
    fn line(&mut self, line: &[u8]) -> bool
        requires size { length line.now ≤ 3000 }
        requires begins { ready self.old }
        ensures { ready self.new };

    // Takes a line over the limit.
    fn too_long(&mut self) -> bool
        requires { ready self.old }
        ensures { ready self.new };

    // The next line may be long in coming.
    fn pause(&mut self) -> bool
        requires { ready self.old }
        ensures { ready self.new };
}

// How a reading ended, with the line begun.
#[derive(Clone, Copy)]
pub enum Ending {
    // The input ended.
    Whole(Begun),
    // A read failed, and that was reported.
    Cut(Begun),
    // No more lines were wanted.
    Unwanted,
}

// Hands over the lines that end in a chunk. The line begun then, unless no more are wanted.
fn hand_over<L: Lines>(
    lines: &mut L,
    buffer: &mut [u8],
    begun: Begun,
    chunk: &[u8],
) -> Option<Begun>
    requires room { 3000 ≤ length buffer.old }
    requires size { begun.len ≤ 3000 }
    requires begins { L.ready lines.old }
    ensures ready { L.ready lines.new }
    ensures size { IfSome result (λ b. b.len ≤ 3000) }
    ensures ends { IfSome result (λ b. Ends chunk.now begun 0 b) }
{
    let mut begun = begun;
    let mut at = 0;
    loop {
        let wanted = match log_lines::next_line(buffer, begun, chunk, at) {
            Step::Line { len, next } => {
                at = next;
                lines.line(&buffer[..len])
            }
            Step::TooLong { next } => {
                at = next;
                lines.too_long()
            }
            Step::More(begun) => return Some(begun),
        };
        if !wanted {
            return None;
        }
        begun = Begun::new();
    }
}

// Reads the input to its end, and hands over its lines but the last one without 0A. Nothing says that an input ends: there are more turns than any run
// uses up. A read that fails is reported.
pub fn read_lines<L: Lines>(
    rt: &impl Eprint,
    input: &mut impl Read,
    name: &str,
    buffer: &mut [u8],
    lines: &mut L,
) -> Ending
    requires room { 3000 ≤ length buffer.old }
    requires begins { L.ready lines.old }
    ensures ready { L.ready lines.new }
    ensures size { IsKept result }
{
    let mut begun = Begun::new();
    for _ in 0..u64::MAX {
        let mut chunk = programs::large_buffer();
        match input.read(&mut chunk) {
            Err(error) => {
                programs::fail(rt, name, &error);
                return Ending::Cut(begun);
            }
            Ok(0) => return Ending::Whole(begun),
            Ok(n) => match hand_over(lines, buffer, begun, &chunk[..n]) {
                None => return Ending::Unwanted,
                Some(next) => begun = next,
            },
        }
        if !lines.pause() {
            return Ending::Unwanted;
        }
    }
    Ending::Whole(begun)
}

// Hands over a last line without 0A, if there is one, and tells whether more lines would be wanted.
pub fn hand_last<L: Lines>(lines: &mut L, buffer: &[u8], begun: Begun) -> bool
    requires room { 3000 ≤ length buffer.now }
    requires size { begun.len ≤ 3000 }
    requires begins { L.ready lines.old }
    ensures { L.ready lines.new }
{
    match log_lines::last_line(begun) {
        Last::Line { len } => lines.line(&buffer[..len]),
        Last::TooLong => lines.too_long(),
        Last::Nothing => true,
    }
}

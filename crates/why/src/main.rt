// why KEY [FILE]: tells in one line why the node with the key is or isn't in the table at the end of the log in the file, or of standard input if it
// is `-` or missing. A text that is no key is answered by 5, and the log isn't opened. What fails is reported on standard error, and then nothing is told.
#![tactic(auto)]

ghost use Rattle.std.specs.Prelude.{◌≡◌, ◌≤◌, length, nat_lt};
ghost use Rattle.log_why.specs.Tracking.{Ready};

use log_history::Reason;
use log_input::{Ending, Lines};
use log_lines::LIMIT;
use log_state::MEMORY;
use log_why::Tracked;
use programs::Source;
use replay_output::write_out;
use std::fs;
use std::io::Read;

// No log has more lines.
const MOST: u64 = 0x7fff_ffff_ffff_ffff;

// The log followed for the node with a key: its table, and what is known of the node.
#[derive(Drop)]
struct Following<'a, R> {
    rt: &'a R,
    key: &'a [u8],
    memory: [u8; MEMORY],
    tracked: Tracked,
}

impl<'a, R: Eprint> Following<'a, R> {
    // Whether one line more is counted; else the log has too many, and that is reported.
    fn is_counted(&self) -> bool
        ensures { result ≡ nat_lt self.now.tracked.trail.lines MOST }
    {
        let counted = self.tracked.trail.lines < MOST;
        if !counted {
            programs::say(self.rt, "the log has too many lines\n");
        }
        counted
    }
}

impl<'a, R: Eprint> Lines for Following<'a, R> {
    ghost ready = { λ s. Ready s.tracked s.memory };

    fn line(&mut self, line: &[u8]) -> bool
        requires size { length line.now ≤ 3000 }
        requires begins { Ready self.old.tracked self.old.memory }
        ensures ready { Ready self.new.tracked self.new.memory }
        ensures same { self.new.key.now ≡ self.old.key.now }
    {
        if !self.is_counted() {
            return false;
        }
        self.tracked = log_why::note_line(&mut self.memory, self.key, self.tracked, line);
        true
    }

    // The table stays as it is.
    fn too_long(&mut self) -> bool
        requires { Ready self.old.tracked self.old.memory }
        ensures ready { Ready self.new.tracked self.new.memory }
        ensures same { (self.new.memory ≡ self.old.memory) × (self.new.key.now ≡ self.old.key.now) }
    {
        if !self.is_counted() {
            return false;
        }
        self.tracked = log_why::note_too_long(self.tracked);
        true
    }

    fn pause(&mut self) -> bool
        requires { Ready self.old.tracked self.old.memory }
        ensures ready { Ready self.new.tracked self.new.memory }
        ensures same { (self.new.tracked ≡ self.old.tracked) × ((self.new.memory ≡ self.old.memory) × (self.new.key.now ≡ self.old.key.now)) }
    {
        true
    }
}

// Writes the first n bytes.
fn print_row(rt: &(impl Print + Eprint), row: &[u8], n: usize)
    requires { n ≤ length row.now }
{
    write_out(rt, &row[0..n]);
}

// Writes the row of an answer.
fn print_why(rt: &(impl Print + Eprint), answer: Option<Reason>) {
    let mut row = [0u8; 64];
    let n = log_reason::put_why(&mut row, answer);
    print_row(rt, &row, n);
}

// Zeros for the table. Each `ensures` gives the length, which lending the array as a slice needs.
fn table_memory() -> [u8; MEMORY]
    ensures { 46304 ≡ length result }
{
    [0; MEMORY]
}

// Zeros for a line.
fn line_buffer() -> [u8; LIMIT]
    ensures { 3000 ≡ length result }
{
    [0; LIMIT]
}

// Tells the reason for a key over a log.
fn tell(rt: &(impl Print + Eprint), input: &mut impl Read, name: &str, key: &[u8]) {
    let mut buffer = line_buffer();
    let memory = table_memory();
    let mut following = Following {
        rt,
        key,
        memory,
        tracked: log_why::start(),
    };
    if let Ending::Whole(begun) = log_input::read_lines(
        rt,
        input,
        name,
        &mut buffer,
        &mut following,
    )
        && log_input::hand_last(&mut following, &buffer, begun)
    {
        print_why(rt, Some(log_why::reason_of(following.tracked.trail)));
    }
}

// Opens the log and tells the reason for a key.
fn tell_of(rt: &HostRuntime, key: &[u8]) {
    let mut path = programs::buffer();
    match programs::source_of(rt, 2, &mut path) {
        Source::StandardInput | Source::File("-") => {
            tell(rt, &mut rt.reader(), "standard input", key)
        }
        Source::File(path) => match fs::open(rt, path) {
            Ok(mut file) => tell(rt, &mut file, path, key),
            Err(error) => programs::fail(rt, path, &error),
        },
        Source::NoPath => {}
    }
}

fn main(rt: HostRuntime) {
    // a text that doesn't fit the buffer, or is missing, is left as an empty one
    let mut text = programs::buffer();
    let length = programs::word(&rt, 1, &mut text);
    if !log_reason::is_key_text(&text[..length]) {
        print_why(&rt, None);
        return;
    }
    let key = log_reason::key_of(&text[..length]);
    tell_of(&rt, &key);
}

// replay [FILE [--progress]]: answers the lines of the log in the file, or of standard input if it is `-` or missing, one line each, and then prints
// the table if an `own` was accepted. Where the input pauses, what is answered is written. What fails is reported on standard error; a write that
// fails ends the program. Progress, if that is a terminal or if asked for, and at the end the counts are told there too, in lines that begin with `# `.
#![tactic(auto)]

ghost use Rattle.std.specs.Prelude.{◌≡◌, length};
ghost use Rattle.replay.specs.Steps.{Ready};

use log_input::{Ending, Lines};
use log_lines::LIMIT;
use log_state::{MEMORY, Replay};
use programs::Source;
use replay_counts::Counts;
use replay_output::{make_room, write_out};
use std::fs;
use std::io::{IsTerminal, Read};

// The bytes of output that are gathered.
const OUT: usize = 65536;

// The replay of a log: its table, its counts, and the output that waits to be written, the first `used` bytes of `out`.
#[derive(Drop)]
struct Replaying<'a, R> {
    rt: &'a R,
    memory: [u8; MEMORY],
    replay: Replay,
    counts: Counts,
    out: [u8; OUT],
    used: usize,
    // Whether a write failed.
    lost: bool,
}

impl<'a, R: Print + Eprint> Lines for Replaying<'a, R> {
    ghost ready = { λ s. Ready s.memory s.out s.replay s.used };

    fn line(&mut self, line: &[u8]) -> bool {
        let room = make_room(self.rt, &self.out, self.used);
        let at = room.at;
        let stepped = log_replay::step(&mut self.memory, &mut self.out[at..], self.replay, line);
        self.replay = stepped.replay;
        self.counts = self.counts.after(self.rt, &self.out[at..]);
        self.used = at + stepped.len;
        self.lost = room.lost;
        !room.lost
    }

    // The replay and its table stay as they are.
    fn too_long(&mut self) -> bool
        requires { Ready self.old.memory self.old.out self.old.replay self.old.used }
        ensures ready { Ready self.new.memory self.new.out self.new.replay self.new.used }
        ensures same { (self.new.replay ≡ self.old.replay) × (self.new.memory ≡ self.old.memory) }
    {
        let room = make_room(self.rt, &self.out, self.used);
        let at = room.at;
        let len = log_replay::too_long(&mut self.out[at..]);
        self.counts = self.counts.after(self.rt, &self.out[at..]);
        self.used = at + len;
        self.lost = room.lost;
        !room.lost
    }

    // Writes the answers that wait; the replay, its table and the bytes of output stay as they are.
    fn pause(&mut self) -> bool
        requires { Ready self.old.memory self.old.out self.old.replay self.old.used }
        ensures ready { Ready self.new.memory self.new.out self.new.replay self.new.used }
        ensures same { (self.new.replay ≡ self.old.replay) × ((self.new.memory ≡ self.old.memory) × (self.new.out ≡ self.old.out)) }
    {
        if self.lost {
            return false;
        }
        self.lost = !write_out(self.rt, &self.out[..self.used]);
        self.used = 0;
        !self.lost
    }
}

impl<'a, R: Print + Eprint> Replaying<'a, R> {
    // Prints the table, if there is one, and tells whether all was written.
    fn print_table(&mut self) -> bool
        requires { Ready self.old.memory self.old.out self.old.replay self.old.used }
    {
        let n = log_replay::put_ending(&mut self.out, &self.memory, self.replay);
        write_out(self.rt, &self.out[..n])
    }
}

// Zeros for the table. Each `ensures` gives the length, which lending the array as a slice needs.
fn table_memory() -> [u8; MEMORY]
    ensures { 46304 ≡ length result }
{
    [0; MEMORY]
}

// Zeros for a line.
fn line_buffer() -> [u8; LIMIT]
    ensures { 3000 ≡ length result }
{
    [0; LIMIT]
}

// `shown`: whether progress is shown. The counts are told where nothing failed.
fn replay_log(rt: &(impl Print + Eprint), input: &mut impl Read, name: &str, shown: bool) {
    let mut buffer = line_buffer();
    let memory = table_memory();
    let out = programs::large_buffer();
    let mut replaying = Replaying {
        rt,
        memory,
        replay: Replay::new(),
        counts: Counts::new(shown),
        out,
        used: 0,
        lost: false,
    };
    let (begun, cut) = match log_input::read_lines(rt, input, name, &mut buffer, &mut replaying) {
        Ending::Whole(begun) => (begun, false),
        Ending::Cut(begun) => (begun, true),
        Ending::Unwanted => return,
    };
    log_input::hand_last(&mut replaying, &buffer, begun);
    if !replaying.pause() {
        return;
    }
    if replaying.print_table() && !cut {
        let replay = replaying.replay;
        replaying
            .counts
            .print_summary(rt, replay.owned, replay.count > 0);
    }
}

// Whether progress is shown: standard error is a terminal, or the second argument asks for it.
fn is_progress_shown(rt: &HostRuntime) -> bool {
    if rt.stderr().is_terminal() {
        return true;
    }
    let mut word = programs::buffer();
    let length = programs::word(rt, 2, &mut word);
    octets::same_bytes(&word[..length], b"--progress")
}

fn main(rt: HostRuntime) {
    let shown = is_progress_shown(&rt);
    let mut path = programs::buffer();
    match programs::source_of(&rt, 1, &mut path) {
        Source::StandardInput | Source::File("-") => {
            replay_log(&rt, &mut rt.reader(), "standard input", shown)
        }
        Source::File(path) => match fs::open(&rt, path) {
            Ok(mut file) => replay_log(&rt, &mut file, path, shown),
            Err(error) => programs::fail(&rt, path, &error),
        },
        Source::NoPath => {}
    }
}

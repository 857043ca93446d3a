// keccak256 [FILE]: prints the Keccak-256 of the file, or of standard input, as 64 hex digits and a line's end.
// An input of more than 65,535 bytes is refused on standard error; what fails is reported there.
#![tactic(auto)]

use programs::Source;
use std::io::Read;
use std::{fs, io};

// Reads until the input ends, the buffer is full or a read fails; the input's length, and at the buffer's own length there may be more.
fn read_to_end(input: &mut impl Read, buf: &mut [u8]) -> io::Result<usize> {
    let mut n: usize = 0;
    // kept: a turn goes on by as many bytes as the read gave
    while n < buf.len() {
        let more = input.read(&mut buf[n..])?;
        if more == 0 {
            return Ok(n);
        }
        n += more;
    }
    Ok(n)
}

// The buffer is one byte longer than what is hashed, so that a longer input shows.
fn hash_input(rt: &(impl Print + Eprint), input: &mut impl Read, name: &str) {
    let mut buf = programs::large_buffer();
    match read_to_end(input, &mut buf) {
        Err(error) => programs::fail(rt, name, &error),
        Ok(n) => {
            if n <= 65535 {
                if let Err(error) = keccak_print::print_hash(rt, &buf[0..n]) {
                    programs::fail(rt, "standard output", &error);
                }
            } else {
                programs::say(rt, format_args!("{name}: more than 65535 bytes\n"));
            }
        }
    }
}

fn main(rt: HostRuntime) {
    let mut path = programs::buffer();
    match programs::source_of(&rt, 1, &mut path) {
        Source::StandardInput => hash_input(&rt, &mut rt.reader(), "standard input"),
        Source::File(path) => match fs::open(&rt, path) {
            Ok(mut file) => hash_input(&rt, &mut file, path),
            Err(error) => programs::fail(&rt, path, &error),
        },
        Source::NoPath => {}
    }
}

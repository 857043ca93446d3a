// bootnodes [FILE]: prints the nodes of the boot list in the file, or of standard input, a row each, and then how it ended: `complete` and the number
// of nodes, or 22 and the number of the line that does not fit. A file that can't be opened or read is reported on standard error, and so is a write that
// fails; either ends the program.
#![tactic(auto)]

ghost use Rattle.std.specs.Prelude.{◌≡◌, length};

use log_input::{Ending, Lines};
use log_lines::LIMIT;
use node::Node;
use programs::Source;
use std::io::Read;
use std::{fs, io};

// ---- the rows; each function answers `Ok` if all was written

fn print_tab(rt: &impl Print) -> io::Result<()> {
    rt.print("\t")
}

fn print_end(rt: &impl Print) -> io::Result<()> {
    rt.print("\n")
}

// The first 8 bytes of a key.
fn print_key(rt: &impl Print, key: [u8; 64]) -> io::Result<()> {
    let number = octets::number_at(&key[0..8], 0, 8);
    print!(rt; "{number:016x}")
}

// The 4 bytes of an IPv4 address.
fn print_address(rt: &impl Print, address: [u8; 16]) -> io::Result<()> {
    let number = octets::number_at(&address[0..4], 0, 4);
    print!(rt; "{number:08x}")
}

// A node's row: key, address, UDP port, TCP port.
fn print_node(rt: &impl Print, node: Node) -> io::Result<()> {
    let key = node.key;
    let endpoint = node.endpoint;
    let address = endpoint.address;
    print_key(rt, key)?;
    print_tab(rt)?;
    print_address(rt, address)?;
    print_tab(rt)?;
    rt.print(endpoint.udp)?;
    print_tab(rt)?;
    rt.print(endpoint.tcp)?;
    print_end(rt)
}

// The row of how the text ended.
fn print_ending(rt: &impl Print, count: u64, unfit: bool) -> io::Result<()> {
    if unfit {
        rt.print(22)?;
        print_tab(rt)?;
        rt.print(count.saturating_add(1))?;
        return print_end(rt);
    }
    rt.print("complete")?;
    print_tab(rt)?;
    rt.print(count)?;
    print_end(rt)
}

// ---- the lines

// Why no more rows are printed.
#[derive(Clone, Copy)]
enum Stop {
    // A line does not fit.
    Unfit,
    // A write failed, and that was reported.
    Failed,
}

// How many nodes are printed, a row each. No text has so many lines that the count stays the same.
#[derive(Drop)]
struct Rows<'a, R> {
    rt: &'a R,
    count: u64,
    stop: Option<Stop>,
}

impl<'a, R: Print + Eprint> Lines for Rows<'a, R> {
    ghost ready = { λ _. Unit {0} };

    fn line(&mut self, line: &[u8]) -> bool {
        let Some(node) = enode::read_enode(line) else {
            self.stop = Some(Stop::Unfit);
            return false;
        };
        if let Err(error) = print_node(self.rt, node) {
            programs::fail(self.rt, "standard output", &error);
            self.stop = Some(Stop::Failed);
            return false;
        }
        self.count = self.count.saturating_add(1);
        true
    }

    fn too_long(&mut self) -> bool {
        self.stop = Some(Stop::Unfit);
        false
    }

    fn pause(&mut self) -> bool {
        true
    }
}

// ---- the program

// Zeros for a line. The `ensures` gives the length, which lending the array as a slice needs.
fn line_buffer() -> [u8; LIMIT]
    ensures { 3000 ≡ length result }
{
    [0; LIMIT]
}

fn print_list(rt: &(impl Print + Eprint), input: &mut impl Read, name: &str) {
    let mut buffer = line_buffer();
    let mut rows = Rows {
        rt,
        count: 0,
        stop: None,
    };
    match log_input::read_lines(rt, input, name, &mut buffer, &mut rows) {
        Ending::Whole(begun) => {
            log_input::hand_last(&mut rows, &buffer, begun);
        }
        Ending::Cut(_) => return,
        Ending::Unwanted => {}
    }
    let unfit = match rows.stop {
        Some(Stop::Failed) => return,
        Some(Stop::Unfit) => true,
        None => false,
    };
    if let Err(error) = print_ending(rt, rows.count, unfit) {
        programs::fail(rt, "standard output", &error);
    }
}

fn main(rt: HostRuntime) {
    let mut path = programs::buffer();
    match programs::source_of(&rt, 1, &mut path) {
        Source::StandardInput => print_list(&rt, &mut rt.reader(), "standard input"),
        Source::File(path) => match fs::open(&rt, path) {
            Ok(mut file) => print_list(&rt, &mut file, path),
            Err(error) => programs::fail(&rt, path, &error),
        },
        Source::NoPath => {}
    }
}

// Reads cases from standard input, one a line in hex, and runs the library's calls on one table memory and one set of counters
// (tests/calls).
//
// A case is 31 bytes and three byte strings: kind 1, how many bytes of the memory are lent 4, number 8, Unix seconds 8, UDP port 2, TCP
// port 2, the lengths 2, 2 and 2 of the byte strings, which are a key, an address and data. The number is the clock where a call has one.
//
// | Kind | Call | Arguments |
// |---|---|---|
// | 0 | init | key; the number of buckets |
// | 1 | datagram | clock, Unix seconds; signer, address, UDP port, the datagram as data |
// | 2 | ping sent | clock; key, address, ports, the hash as data |
// | 3 | sweep | clock |
// | 4 | closest | the target as key; the list lent has sixteen records of bytes ee |
// | 5 | | the data is stored in the lent memory from the index that the number says |
// | 6 | count_of | the number |
// | 7 | cleared | |
//
// The line printed is the answer number (kind 6: the count; kinds 5 and 7: 0), what the answer says besides, and the Keccak-256 of the
// lent memory after the call, parted by tabs. An accepted datagram says what the replay prints, with the whole node at the head behind
// `wait`. An accepted closest call says how many nodes there are, how many distances were worked out, and of each node the first 8 bytes of the
// key, the address and the ports; and every closest call the Keccak-256 of all sixteen records after it. At the end stand the 22 counts.
#![tactic(auto)]

ghost use Rattle.std.specs.Prelude.{◌≤◌, length};

mod answers;

use answers::print_answer;
use counters::Counters;
use node::{Endpoint, MonotonicMillis, Node, UnixSeconds};
use std::io::Read;
use test_lines::{Line, bytes_at, short};

// Room for a table of 257 buckets, one more than a table can have.
const MEMORY: usize = 736046;

// ---- the fields of a case

fn kind(s: &[u8]) -> u64 {
    test_lines::number(s, 0, 1)
}

fn lent(s: &[u8]) -> usize {
    test_lines::number(s, 1, 4) as usize
}

fn number(s: &[u8]) -> u64 {
    test_lines::number(s, 5, 8)
}

fn clock(s: &[u8]) -> MonotonicMillis {
    MonotonicMillis(number(s))
}

fn key(s: &[u8]) -> &[u8] {
    bytes_at(s, 31, short(s, 25) as usize)
}

fn address(s: &[u8]) -> &[u8] {
    bytes_at(s, 31 + short(s, 25) as usize, short(s, 27) as usize)
}

fn data(s: &[u8]) -> &[u8] {
    let at = 31 + short(s, 25) as usize + short(s, 27) as usize;
    bytes_at(s, at, short(s, 29) as usize)
}

// ---- the calls

fn run_datagram(rt: &impl Print, table: &mut [u8], counters: Counters, s: &[u8]) -> Counters {
    let unix = UnixSeconds(test_lines::number(s, 13, 8));
    let port = short(s, 21);
    let after = counted_datagram::datagram_with(
        counters,
        table,
        clock(s),
        unix,
        address(s),
        port,
        key(s),
        data(s),
    );
    answers::print_received(rt, after.received);
    after.counters
}

fn run_ping_sent(rt: &impl Print, table: &mut [u8], counters: Counters, s: &[u8]) -> Counters {
    let udp = short(s, 21);
    let tcp = short(s, 23);
    let after = counted_ping_sent::ping_sent_with(
        counters,
        table,
        clock(s),
        key(s),
        address(s),
        udp,
        tcp,
        data(s),
    );
    print_answer(rt, after.number);
    after.counters
}

fn run_sweep(rt: &impl Print, table: &mut [u8], counters: Counters, s: &[u8]) -> Counters {
    let after = counted_sweep::sweep_with(counters, table, clock(s));
    print_answer(rt, after.number);
    after.counters
}

// The node of a record with every byte ee.
fn filler() -> Node {
    let endpoint = Endpoint {
        len: 0xee,
        address: [0xee; 16],
        udp: 0xeeee,
        tcp: 0xeeee,
    };
    Node {
        key: [0xee; 64],
        endpoint,
    }
}

fn run_closest(rt: &impl Print, table: &[u8], s: &[u8]) {
    let node = filler();
    let listed = closest::closest_with([node; 16], table, key(s));
    let nodes = listed.nodes;
    answers::print_listed(rt, listed.number, listed.count, listed.distances, nodes);
}

// Runs a case on the lent memory, and returns the counters after it.
fn run_call(rt: &impl Print, table: &mut [u8], counters: Counters, s: &[u8]) -> Counters {
    match kind(s) {
        0 => {
            let answer = discv4::init(table, key(s), number(s) as usize);
            print_answer(rt, discv4::answer_number(answer));
            counters
        }
        1 => run_datagram(rt, table, counters, s),
        2 => run_ping_sent(rt, table, counters, s),
        3 => run_sweep(rt, table, counters, s),
        4 => {
            run_closest(rt, table, s);
            counters
        }
        5 => {
            test_lines::store(table, number(s) as usize, data(s));
            print_answer(rt, 0);
            counters
        }
        6 => {
            let count = discv4::count_of(counters, test_lines::byte(s, 12));
            test_lines::print_decimal(rt, count as u64);
            counters
        }
        _ => {
            print_answer(rt, 0);
            discv4::cleared()
        }
    }
}

fn run_on(rt: &impl Print, table: &mut [u8], counters: Counters, s: &[u8]) -> Counters {
    let after = run_call(rt, table, counters, s);
    let hash = keccak::keccak256(table);
    test_lines::print_bytes(rt, &hash);
    test_lines::print(rt, "\n");
    after
}

// Runs a case on as many bytes of the memory as it asks for, if they are there.
fn run(rt: &impl Print, memory: &mut [u8], counters: Counters, s: &[u8]) -> Counters {
    let n = lent(s);
    if n <= memory.len() {
        return run_on(rt, &mut memory[..n], counters, s);
    }
    counters
}

// ---- the input

// The line that is being read, and the counters so far.
#[derive(Clone, Copy)]
struct State {
    line: Line,
    counters: Counters,
}

// Takes one more byte of the input.
fn take(rt: &impl Print, memory: &mut [u8], case: &mut [u8], state: State, b: u8) -> State
    requires { state.line.n ≤ length case.old }
    ensures { result.line.n ≤ length case.old }
{
    let line = state.line;
    let counters = state.counters;
    if b == b'\n' {
        let n = line.n;
        let after = run(rt, memory, counters, &case[..n]);
        return State {
            line: Line::new(),
            counters: after,
        };
    }
    State {
        line: test_lines::push(case, line, b),
        counters,
    }
}

fn feed(rt: &impl Print, memory: &mut [u8], case: &mut [u8], state: State, bytes: &[u8]) -> State
    requires { state.line.n ≤ length case.old }
    ensures { result.line.n ≤ length case.old }
{
    let mut current = state;
    for byte in bytes {
        current = take(rt, memory, case, current, *byte);
    }
    current
}

// Runs the cases on this memory, in at most 65,536 chunks of 4,096 bytes. The zeros are a parameter, so that the proof knows the memory by
// its type and doesn't count them.
fn run_all(rt: &impl Print, input: &mut impl Read, zeros: [u8; MEMORY]) {
    let mut memory = zeros;
    let mut case = [0u8; 4096];
    let mut state = State {
        line: Line::new(),
        counters: discv4::cleared(),
    };
    let mut chunk = [0u8; 4096];
    for _ in 0..65536 {
        // a read that fails ends the input
        let count = input.read(&mut chunk).unwrap_or(0);
        if count == 0 {
            answers::print_counts(rt, state.counters);
            return;
        }
        state = feed(rt, &mut memory, &mut case, state, &chunk[..count]);
    }
}

fn main(rt: HostRuntime) {
    run_all(&rt, &mut rt.reader(), [0; MEMORY]);
}

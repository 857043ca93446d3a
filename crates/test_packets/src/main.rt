// Reads cases from standard input, one a line in hex, and prints the answer of each (tests/packets makes the cases).
//
// A case is 30 bytes and two byte strings: kind 1, room 2, expiration 8, enr-seq 1 (0: absent) and 8, UDP port 2, TCP port 2, second UDP
// port 2, the lengths 2 and 2 of the byte strings. Kinds 1 to 6 are the writers and 7 is `join`. The nodes of kind 4 are 16 times 85
// bytes in the place of the byte strings (address length 1, address 16, ports 2 and 2, key 64), and their number is the first length.
// The line printed is the answer's number, a tab, and in hex the whole room after the call. It holds bytes ee before.
// Kind 0 is a datagram to read, the first byte string, at the Unix time that stands for the expiration. The line printed is the answer's
// number, and after 0 the type and the fields, parted by tabs: numbers in decimal, bytes in hex, `-` for no enr-seq.
#![tactic(auto)]

ghost use Rattle.std.specs.Prelude.{◌+◌, ◌*◌, ◌≤◌, length};

mod reading;

use node::{Endpoint, Node};
use packet_bodies::NodeList;
use std::io::Read;
use test_lines::{Line, bytes_at, number, short};
use written::WriteError;

fn enr_seq(s: &[u8]) -> Option<u64> {
    if number(s, 11, 1) == 0 {
        None
    } else {
        Some(number(s, 12, 8))
    }
}

// The node whose 85 bytes start at index `at`; one with nothing in it where they do not lie inside.
fn node_at(s: &[u8], at: usize) -> Node {
    let mut address = [0u8; 16];
    let mut key = [0u8; 64];
    let bytes = bytes_at(s, at, 85);
    if bytes.len() == 85 {
        octets::get_bytes(&mut address, bytes, 1);
        octets::get_bytes(&mut key, bytes, 21);
    }
    let endpoint = Endpoint {
        len: test_lines::byte(bytes, 0),
        address,
        udp: short(bytes, 17),
        tcp: short(bytes, 19),
    };
    Node { key, endpoint }
}

fn nodes(s: &[u8]) -> NodeList {
    let mut list = NodeList {
        len: short(s, 26) as usize,
        nodes: [node_at(s, 30); 16],
    };
    for i in 0..16 {
        list.nodes[i] = node_at(s, 30 + 85 * i);
    }
    list
}

// The answer of the writer that a case names.
fn written(s: &[u8], room: &mut [u8]) -> Result<usize, WriteError> {
    let kind = number(s, 0, 1);
    let expiration = number(s, 3, 8);
    let seq = enr_seq(s);
    let udp = short(s, 20);
    let n = short(s, 26) as usize;
    let first = bytes_at(s, 30, n);
    let second = bytes_at(s, 30 + n, short(s, 28) as usize);
    match kind {
        1 => discv4::write_ping(
            room,
            first,
            udp,
            short(s, 22),
            second,
            short(s, 24),
            expiration,
            seq,
        ),
        2 => discv4::write_pong(room, first, udp, second, expiration, seq),
        3 => discv4::write_find_node(room, first, expiration),
        4 => discv4::write_neighbors(room, nodes(s), expiration),
        5 => discv4::write_enr_request(room, expiration),
        6 => discv4::write_enr_response(room, first, second),
        _ => discv4::join(room, first, second),
    }
}

// Runs the writer of a case in this room.
fn print_written(rt: &impl Print, s: &[u8], room: &mut [u8]) {
    let answer = written(s, room);
    test_lines::print_decimal(rt, discv4::written_number(answer) as u64);
    test_lines::print(rt, "\t");
    test_lines::print_hex(rt, room);
    test_lines::print(rt, "\n");
}

// Runs the writer of a case in the room that it asks for, if `buf` has it.
fn run_in(rt: &impl Print, s: &[u8], buf: &mut [u8]) {
    let n = short(s, 1) as usize;
    if n <= buf.len() {
        print_written(rt, s, &mut buf[..n]);
    }
}

fn run(rt: &impl Print, s: &[u8]) {
    if number(s, 0, 1) == 0 {
        let n = short(s, 26) as usize;
        reading::print_read(rt, bytes_at(s, 30, n), number(s, 3, 8));
        return;
    }
    let mut buf = [0xeeu8; 1400];
    run_in(rt, s, &mut buf);
}

// Takes one more byte of the input.
fn take(rt: &impl Print, case: &mut [u8], line: Line, b: u8) -> Line
    requires { line.n ≤ length case.old }
    ensures { result.n ≤ length case.old }
{
    if b == b'\n' {
        let n = line.n;
        run(rt, &case[..n]);
        return Line::new();
    }
    test_lines::push(case, line, b)
}

fn feed(rt: &impl Print, case: &mut [u8], line: Line, bytes: &[u8]) -> Line
    requires { line.n ≤ length case.old }
    ensures { result.n ≤ length case.old }
{
    let mut state = line;
    for byte in bytes {
        state = take(rt, case, state, *byte);
    }
    state
}

// Reads at most 65,536 chunks of 4,096 bytes.
fn main(rt: HostRuntime) {
    let mut input = rt.reader();
    let mut case = [0u8; 2048];
    let mut line = Line::new();
    let mut chunk = [0u8; 4096];
    for _ in 0..65536 {
        // a read that fails ends the input
        let count = input.read(&mut chunk).unwrap_or(0);
        if count == 0 {
            return;
        }
        line = feed(&rt, &mut case, line, &chunk[..count]);
    }
}

// What is printed of the answers.
ghost use Rattle.std.specs.Prelude.{◌+◌, ◌≤◌, length};

use call_answer::{Outcome, Received, Standing};
use counters::Counters;
use entry::PingState;
use node::{Endpoint, Node};
use test_lines::{bytes_at, print, print_bytes, print_decimal, print_number};

// The ping state of a node: `quiet`, or since when the ping is out.
fn print_ping(rt: &impl Print, ping: PingState) {
    match ping {
        PingState::Quiet => {
            print(rt, "\tquiet");
        }
        PingState::Out(since) => print_number(rt, since.0),
    }
}

fn print_endpoint(rt: &impl Print, endpoint: Endpoint) {
    let address = endpoint.address;
    print_bytes(rt, bytes_at(&address, 0, endpoint.len as usize));
    print_number(rt, endpoint.udp as u64);
    print_number(rt, endpoint.tcp as u64);
}

// A node by the first `n` bytes of its key.
fn print_node(rt: &impl Print, node: Node, n: usize) {
    let key = node.key;
    let endpoint = node.endpoint;
    print_bytes(rt, bytes_at(&key, 0, n));
    print_endpoint(rt, endpoint);
}

fn print_standing(rt: &impl Print, standing: Standing, head: Node) {
    match standing {
        Standing::Tail => {
            print(rt, "\ttail");
        }
        Standing::TookEntry => {
            print(rt, "\tseat");
        }
        Standing::RangeFull => {
            print(rt, "\twait");
        }
        Standing::Waiting(ping) => {
            print(rt, "\twait");
            print_node(rt, head, 64);
            print_ping(rt, ping);
        }
    }
}

fn print_ping_due(rt: &impl Print, due: bool) {
    print(rt, "\tpong");
    if due {
        print(rt, "\tping");
    }
}

// What the answer to a datagram says besides its number.
fn print_outcome(rt: &impl Print, outcome: Outcome, head: Node) {
    match outcome {
        Outcome::Refused(_) => {}
        Outcome::Ping(_, due) => print_ping_due(rt, due),
        Outcome::Pong(_, standing) => print_standing(rt, standing, head),
        Outcome::FindNode(_) => {
            print(rt, "\tfind");
        }
        Outcome::Neighbors(_) => {
            print(rt, "\tnodes");
        }
        Outcome::EnrRequest(_) => {
            print(rt, "\tenr");
        }
        Outcome::EnrResponse(_) => {
            print(rt, "\trecord");
        }
    }
}

pub fn print_received(rt: &impl Print, received: Received) {
    let outcome = received.outcome;
    let head = received.head;
    print_answer(rt, call_answer::number(received));
    print_outcome(rt, outcome, head);
}

pub fn print_answer(rt: &impl Print, number: u8) {
    print_decimal(rt, number as u64);
}

// A node record's 85 bytes, from index `at`: address length 1, address 16, ports 2 and 2, key 64.
fn put_node(buf: &mut [u8], at: usize, node: Node)
    requires { at + 85 ≤ length buf.old }
{
    let key = node.key;
    let endpoint = node.endpoint;
    let address = endpoint.address;
    octets::put_byte(buf, at, endpoint.len);
    test_lines::store(buf, at + 1, &address);
    octets::put_number(buf, at + 17, 2, endpoint.udp as u64);
    octets::put_number(buf, at + 19, 2, endpoint.tcp as u64);
    test_lines::store(buf, at + 21, &key);
}

// The Keccak-256 of a list's records.
fn print_records(rt: &impl Print, nodes: [Node; 16]) {
    let mut buf = [0u8; 1360];
    for i in 0..16 {
        let node = nodes[i];
        put_node(&mut buf, 85 * i, node);
    }
    print_bytes(rt, &keccak::keccak256(&buf));
}

// The first `count` nodes of a list.
fn print_nodes(rt: &impl Print, count: usize, nodes: [Node; 16]) {
    for i in 0..16 {
        let node = nodes[i];
        if i < count {
            print_node(rt, node, 8);
        }
    }
}

// The answer of a closest call, and the list after it.
pub fn print_listed(
    rt: &impl Print,
    number: u8,
    count: usize,
    distances: usize,
    nodes: [Node; 16],
) {
    print_answer(rt, number);
    if number == 0 {
        print_number(rt, count as u64);
        print_number(rt, distances as u64);
        print_nodes(rt, count, nodes);
    }
    print_records(rt, nodes);
}

// The counts of the answer numbers 0 to 21.
pub fn print_counts(rt: &impl Print, counters: Counters) {
    print(rt, "counts");
    for number in 0..22 {
        print_number(rt, discv4::count_of(counters, number) as u64);
    }
    print(rt, "\n");
}

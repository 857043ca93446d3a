// The answer of reading a datagram, and its fields.
use node::{Node, UnixSeconds};
use packet::{EnrResponse, FindNode, Neighbors, Packet, Parsed, Ping, Pong, Recipient};
use packet_span::Span;
use test_lines::{print, print_bytes, print_decimal, print_number};

fn print_enr_seq(rt: &impl Print, e: Option<u64>) {
    match e {
        None => {
            print(rt, "\t-");
        }
        Some(n) => print_number(rt, n),
    }
}

fn print_to(rt: &impl Print, g: &[u8], to: Recipient) {
    let address = to.address;
    print_bytes(rt, discv4::field_part(g, address));
    print_number(rt, to.udp as u64);
}

fn print_from(rt: &impl Print, g: &[u8], address: Option<Span>) {
    match address {
        None => {
            print(rt, "\tunknown");
        }
        Some(span) => print_bytes(rt, discv4::field_part(g, span)),
    }
}

fn print_ping(rt: &impl Print, g: &[u8], p: Ping) {
    let from = p.from;
    let address = from.address;
    let to = p.to;
    let seq = p.enr_seq;
    print(rt, "0\t1");
    print_number(rt, p.version);
    print_from(rt, g, address);
    print_number(rt, from.udp as u64);
    print_number(rt, from.tcp as u64);
    print_to(rt, g, to);
    print_number(rt, p.expiration);
    print_enr_seq(rt, seq);
}

fn print_pong(rt: &impl Print, g: &[u8], p: Pong) {
    let to = p.to;
    let hash = p.ping_hash;
    let seq = p.enr_seq;
    print(rt, "0\t2");
    print_to(rt, g, to);
    print_bytes(rt, discv4::field_part(g, hash));
    print_number(rt, p.expiration);
    print_enr_seq(rt, seq);
}

fn print_find_node(rt: &impl Print, g: &[u8], p: FindNode) {
    let target = p.target;
    print(rt, "0\t3");
    print_bytes(rt, discv4::field_part(g, target));
    print_number(rt, p.expiration);
}

fn print_node(rt: &impl Print, n: Node) {
    let endpoint = n.endpoint;
    let address = endpoint.address;
    let span = Span {
        start: 0,
        len: endpoint.len as usize,
    };
    let key = n.key;
    print_bytes(rt, discv4::field_part(&address, span));
    print_number(rt, endpoint.udp as u64);
    print_number(rt, endpoint.tcp as u64);
    print_bytes(rt, &key);
}

fn print_nodes(rt: &impl Print, g: &[u8], nodes: Span) {
    let n = discv4::node_count(g, nodes);
    print_number(rt, n as u64);
    for i in 0..n {
        print_node(rt, discv4::node_at(g, nodes, i));
    }
}

fn print_neighbors(rt: &impl Print, g: &[u8], p: Neighbors) {
    let nodes = p.nodes;
    print(rt, "0\t4");
    print_nodes(rt, g, nodes);
    print_number(rt, p.expiration);
}

fn print_enr_response(rt: &impl Print, g: &[u8], p: EnrResponse) {
    let hash = p.request_hash;
    print(rt, "0\t6");
    print_bytes(rt, discv4::field_part(g, hash));
    print_bytes(rt, discv4::record_part(g));
}

fn print_packet(rt: &impl Print, g: &[u8], packet: Packet) {
    match packet {
        Packet::Ping(p) => print_ping(rt, g, p),
        Packet::Pong(p) => print_pong(rt, g, p),
        Packet::FindNode(p) => print_find_node(rt, g, p),
        Packet::Neighbors(p) => print_neighbors(rt, g, p),
        Packet::EnrRequest(p) => {
            print(rt, "0\t5");
            print_number(rt, p.expiration);
        }
        Packet::EnrResponse(p) => print_enr_response(rt, g, p),
    }
}

fn print_parsed(rt: &impl Print, g: &[u8], parsed: Parsed) {
    match parsed {
        Parsed::Packet(packet) => print_packet(rt, g, packet),
        Parsed::Refused(number) => {
            print_decimal(rt, number as u64);
        }
    }
}

pub fn print_read(rt: &impl Print, g: &[u8], unix: u64) {
    if packet_envelope::is_sized(g) {
        if packet_envelope::hash_matches(g) {
            print_parsed(rt, g, packet_datagram::read(g, UnixSeconds(unix)));
        } else {
            print(rt, "4");
        }
    } else {
        print(rt, "3");
    }
    print(rt, "\n");
}

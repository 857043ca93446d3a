// The fields of a datagram's packet as numbers in fixed places, and the nodes of a Neighbors, for C.
#![tactic(auto)]

ghost use Rattle.std.specs.Prelude.{◌≡◌};
ghost use Rattle.packet_span.specs.Parts.{bytes_of};
ghost use Rattle.packet_fields.specs.Spans.{node_at};
ghost use Rattle.packet_datagram.specs.Datagram.{packet_in};
ghost use Rattle.capi_packet.specs.Fields.{seq_present, seq_value, from_start, from_len, flat_ping, flat_pong, flat_find_node, flat_neighbors, flat_enr_request, flat_enr_response, flat_packet, read_number, fields_after};

use node::Node;
use packet::{EnrRequest, EnrResponse, FindNode, Neighbors, Packet, Parsed, Ping, Pong};
use packet_span::Span;

fn seq_present(enr_seq: Option<u64>) -> u64
    ensures { result ≡ seq_present enr_seq }
{
    u64::from(enr_seq.is_some())
}

fn seq_value(enr_seq: Option<u64>) -> u64
    ensures { result ≡ seq_value enr_seq }
{
    enr_seq.unwrap_or(0)
}

fn from_start(address: Option<Span>) -> u64
    ensures { result ≡ from_start address }
{
    address.map_or(0, |span| span.start as u64)
}

fn from_len(address: Option<Span>) -> u64
    ensures { result ≡ from_len address }
{
    address.map_or(0, |span| span.len as u64)
}

fn flat_ping(p: Ping) -> [u64; 20]
    ensures { result ≡ flat_ping p }
{
    let enr_seq = p.enr_seq;
    let present = seq_present(enr_seq);
    let seq = seq_value(enr_seq);
    let from = p.from;
    let address = from.address;
    let start = from_start(address);
    let len = from_len(address);
    [
        1,
        p.version,
        p.expiration,
        present,
        seq,
        start,
        len,
        from.udp as u64,
        from.tcp as u64,
        p.to.address.start as u64,
        p.to.address.len as u64,
        p.to.udp as u64,
        0,
        0,
        0,
        0,
        0,
        0,
        0,
        0,
    ]
}

fn flat_pong(p: Pong) -> [u64; 20]
    ensures { result ≡ flat_pong p }
{
    let enr_seq = p.enr_seq;
    let present = seq_present(enr_seq);
    let seq = seq_value(enr_seq);
    [
        2,
        0,
        p.expiration,
        present,
        seq,
        0,
        0,
        0,
        0,
        p.to.address.start as u64,
        p.to.address.len as u64,
        p.to.udp as u64,
        p.ping_hash.start as u64,
        p.ping_hash.len as u64,
        0,
        0,
        0,
        0,
        0,
        0,
    ]
}

fn flat_find_node(p: FindNode) -> [u64; 20]
    ensures { result ≡ flat_find_node p }
{
    let mut fields = [0; 20];
    fields[0] = 3;
    fields[2] = p.expiration;
    fields[14] = p.target.start as u64;
    fields[15] = p.target.len as u64;
    fields
}

fn flat_neighbors(p: Neighbors) -> [u64; 20]
    ensures { result ≡ flat_neighbors p }
{
    let mut fields = [0; 20];
    fields[0] = 4;
    fields[2] = p.expiration;
    fields[16] = p.nodes.start as u64;
    fields[17] = p.nodes.len as u64;
    fields
}

fn flat_enr_request(p: EnrRequest) -> [u64; 20]
    ensures { result ≡ flat_enr_request p }
{
    let mut fields = [0; 20];
    fields[0] = 5;
    fields[2] = p.expiration;
    fields
}

fn flat_enr_response(p: EnrResponse) -> [u64; 20]
    ensures { result ≡ flat_enr_response p }
{
    let mut fields = [0; 20];
    fields[0] = 6;
    fields[12] = p.request_hash.start as u64;
    fields[13] = p.request_hash.len as u64;
    fields[18] = p.record.start as u64;
    fields[19] = p.record.len as u64;
    fields
}

fn fields_of(packet: Packet) -> [u64; 20]
    ensures { result ≡ flat_packet packet }
{
    match packet {
        Packet::Ping(p) => flat_ping(p),
        Packet::Pong(p) => flat_pong(p),
        Packet::FindNode(p) => flat_find_node(p),
        Packet::Neighbors(p) => flat_neighbors(p),
        Packet::EnrRequest(p) => flat_enr_request(p),
        Packet::EnrResponse(p) => flat_enr_response(p),
    }
}

// What reading a datagram gives: see read_fields.
#[derive(Clone, Copy)]
pub struct Fields {
    pub number: u8,
    pub fields: [u64; 20],
}

// The fields of a datagram's packet, in the places that specs/Fields.antt names; a byte string is its start in the datagram and its length.
// The answer number: 0, or 8, 9 or 10 and the fields are `old`. Only the type and the data are looked at.
pub fn read_fields(datagram: &[u8], old: [u64; 20]) -> Fields
    ensures { (result.number ≡ read_number (packet_in datagram.now)) × (result.fields ≡ fields_after (packet_in datagram.now) old) }
{
    match packet_datagram::packet_in(datagram) {
        Parsed::Packet(packet) => {
            let fields = fields_of(packet);
            Fields { number: 0, fields }
        }
        Parsed::Refused(number) => Fields {
            number,
            fields: old,
        },
    }
}

// Node `n` of a Neighbors packet, counted from 0, by the start and length of its nodes; zeros where there is none.
pub fn node_from(datagram: &[u8], start: usize, len: usize, n: usize) -> Node
    ensures { result ≡ node_at n (bytes_of datagram.now (record { start = start; len = len })) }
{
    packet_fields::node_at(datagram, Span { start, len }, n)
}

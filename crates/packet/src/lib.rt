// The six packets of the discv4 wire protocol, read from the data after the 98-byte head.
#![tactic(auto)]

ghost use Rattle.std.specs.Prelude.{◌≡◌, ◌+◌, ◌<◌, ◌^◌, length};
ghost use Rattle.packet_span.specs.Parts as span;
ghost use Rattle.packet_fields.specs.Spans.{span_of};
ghost use Rattle.packet_schema.specs.Schema.{verdict};
ghost use Rattle.packet.specs.Packets.{type_of, schema_of, required_of, endpoint_of, sender_of, ping_of, pong_of, find_node_of, neighbors_of, enr_request_of, enr_response_of, packet_of, read_as, read_data};
ghost use Rattle.packet.specs.Packets as spec;

use packet_fields::{enr_seq_item, item_payload, item_span, port_item, uint_item};
use packet_kinds::{Kind, Verdict};
use packet_schema::check_data;
use packet_span::{Span, bytes_of, moved};

// The endpoint `from`: an empty address is unknown.
#[derive(Clone, Copy, Debug, PartialEq, Eq)]
pub struct Sender {
    pub address: Option<Span>,
    pub udp: u16,
    pub tcp: u16,
}

// An endpoint as it stands in a datagram.
#[derive(Clone, Copy)]
pub struct EndpointSpan {
    pub address: Span,
    pub udp: u16,
    pub tcp: u16,
}

// The endpoint `to`, whose TCP port is not a field.
#[derive(Clone, Copy)]
pub struct Recipient {
    pub address: Span,
    pub udp: u16,
}

#[derive(Clone, Copy)]
pub struct Ping {
    pub version: u64,
    pub from: Sender,
    pub to: Recipient,
    pub expiration: u64,
    pub enr_seq: Option<u64>,
}

#[derive(Clone, Copy)]
pub struct Pong {
    pub to: Recipient,
    pub ping_hash: Span,
    pub expiration: u64,
    pub enr_seq: Option<u64>,
}

#[derive(Clone, Copy)]
pub struct FindNode {
    pub target: Span,
    pub expiration: u64,
}

// `nodes` is the payload of the list of nodes: see `packet_fields::node_count` and `packet_fields::node_at`.
#[derive(Clone, Copy)]
pub struct Neighbors {
    pub nodes: Span,
    pub expiration: u64,
}

#[derive(Clone, Copy)]
pub struct EnrRequest {
    pub expiration: u64,
}

// `record` is the record with its header.
#[derive(Clone, Copy)]
pub struct EnrResponse {
    pub request_hash: Span,
    pub record: Span,
}

#[derive(Clone, Copy)]
pub enum Packet {
    Ping(Ping),
    Pong(Pong),
    FindNode(FindNode),
    Neighbors(Neighbors),
    EnrRequest(EnrRequest),
    EnrResponse(EnrResponse),
}

// What reading finds: the packet, or the answer's number.
#[derive(Clone, Copy)]
pub enum Parsed {
    Packet(Packet),
    Refused(u8),
}

#[derive(Clone, Copy)]
pub enum PacketType {
    Ping,
    Pong,
    FindNode,
    Neighbors,
    EnrRequest,
    EnrResponse,
}

// The endpoint that is item `n` of the payload `s`, which begins at `base` of the datagram.
fn endpoint_at(s: &[u8], base: usize, n: usize) -> EndpointSpan
    requires { base + length s.now < 2 ^ 64 }
    ensures { result ≡ endpoint_of base n s.now }
{
    let span = item_payload(s, n);
    let e = bytes_of(s, span);
    let first = base + span.start;
    let address = moved(first, item_payload(e, 0));
    EndpointSpan {
        address,
        udp: port_item(e, 1),
        tcp: port_item(e, 2),
    }
}

// Document 02 (C-13): "say 'unknown' for 0".
fn said(address: Span) -> Option<Span>
    ensures { result ≡ spec.said address }
{
    if address.len == 0 {
        return None;
    }
    Some(address)
}

fn sender_at(s: &[u8], base: usize, n: usize) -> Sender
    requires { base + length s.now < 2 ^ 64 }
    ensures { result ≡ sender_of base n s.now }
{
    let e = endpoint_at(s, base, n);
    Sender {
        address: said(e.address),
        udp: e.udp,
        tcp: e.tcp,
    }
}

fn recipient_at(s: &[u8], base: usize, n: usize) -> Recipient
    requires { base + length s.now < 2 ^ 64 }
    ensures { result ≡ spec.recipient_of base n s.now }
{
    let e = endpoint_at(s, base, n);
    Recipient {
        address: e.address,
        udp: e.udp,
    }
}

// The payload of item `n` of the payload `s`, which begins at `base` of the datagram.
fn payload_at(s: &[u8], base: usize, n: usize) -> Span
    requires { base + length s.now < 2 ^ 64 }
    ensures { result ≡ span.moved base (span_of n s.now) }
{
    moved(base, item_payload(s, n))
}

fn ping_fields(s: &[u8], base: usize) -> Ping
    requires { base + length s.now < 2 ^ 64 }
    ensures { result ≡ ping_of base s.now }
{
    let from = sender_at(s, base, 1);
    let to = recipient_at(s, base, 2);
    Ping {
        version: uint_item(s, 0),
        from,
        to,
        expiration: uint_item(s, 3),
        enr_seq: enr_seq_item(s, 4),
    }
}

fn pong_fields(s: &[u8], base: usize) -> Pong
    requires { base + length s.now < 2 ^ 64 }
    ensures { result ≡ pong_of base s.now }
{
    let to = recipient_at(s, base, 0);
    let ping_hash = payload_at(s, base, 1);
    Pong {
        to,
        ping_hash,
        expiration: uint_item(s, 2),
        enr_seq: enr_seq_item(s, 3),
    }
}

fn find_node_fields(s: &[u8], base: usize) -> FindNode
    requires { base + length s.now < 2 ^ 64 }
    ensures { result ≡ find_node_of base s.now }
{
    let target = payload_at(s, base, 0);
    FindNode {
        target,
        expiration: uint_item(s, 1),
    }
}

fn neighbors_fields(s: &[u8], base: usize) -> Neighbors
    requires { base + length s.now < 2 ^ 64 }
    ensures { result ≡ neighbors_of base s.now }
{
    let nodes = payload_at(s, base, 0);
    Neighbors {
        nodes,
        expiration: uint_item(s, 1),
    }
}

fn enr_response_fields(s: &[u8], base: usize) -> EnrResponse
    requires { base + length s.now < 2 ^ 64 }
    ensures { result ≡ enr_response_of base s.now }
{
    let request_hash = payload_at(s, base, 0);
    let record = moved(base, item_span(s, 1));
    EnrResponse {
        request_hash,
        record,
    }
}

// The type that a type byte says; none where it is unknown.
#[tactic(auto, unfolding(crate::specs::Packets::type_of))]
pub fn type_of(b: u8) -> Option<PacketType>
    ensures { result ≡ type_of b }
{
    match b {
        1 => Some(PacketType::Ping),
        2 => Some(PacketType::Pong),
        3 => Some(PacketType::FindNode),
        4 => Some(PacketType::Neighbors),
        5 => Some(PacketType::EnrRequest),
        6 => Some(PacketType::EnrResponse),
        _ => None,
    }
}

// Whether data is what a packet of type `t` must be: of the kinds of its items all must be there but the last of Ping and Pong.
fn check(t: PacketType, bytes: &[u8]) -> Verdict
    ensures { result ≡ verdict (required_of t) (schema_of t) bytes.now }
{
    let any = Kind::Uint(u64::MAX);
    match t {
        PacketType::Ping => check_data(bytes, &[any, Kind::Sender, Kind::Endpoint, any, any], 4),
        PacketType::Pong => check_data(bytes, &[Kind::Endpoint, Kind::Bytes(32), any, any], 3),
        PacketType::FindNode => check_data(bytes, &[Kind::Bytes(64), any], 2),
        PacketType::Neighbors => check_data(bytes, &[Kind::Nodes, any], 2),
        PacketType::EnrRequest => check_data(bytes, &[any], 1),
        PacketType::EnrResponse => check_data(bytes, &[Kind::Bytes(32), Kind::Record], 2),
    }
}

fn packet_of(t: PacketType, s: &[u8], base: usize) -> Packet
    requires { base + length s.now < 2 ^ 64 }
    ensures { result ≡ packet_of t base s.now }
{
    match t {
        PacketType::Ping => Packet::Ping(ping_fields(s, base)),
        PacketType::Pong => Packet::Pong(pong_fields(s, base)),
        PacketType::FindNode => Packet::FindNode(find_node_fields(s, base)),
        PacketType::Neighbors => Packet::Neighbors(neighbors_fields(s, base)),
        PacketType::EnrRequest => Packet::EnrRequest(enr_request_fields(s)),
        PacketType::EnrResponse => Packet::EnrResponse(enr_response_fields(s, base)),
    }
}

fn enr_request_fields(s: &[u8]) -> EnrRequest
    ensures { result ≡ enr_request_of s.now }
{
    EnrRequest {
        expiration: uint_item(s, 0),
    }
}

// Reads the data of a packet of type `t`, which begins at `base` of the datagram: the spans of its fields are the datagram's.
fn read_as(t: PacketType, bytes: &[u8], base: usize) -> Parsed
    requires { base + length bytes.now < 2 ^ 64 }
    ensures { result ≡ read_as t base bytes.now }
{
    match check(t, bytes) {
        Verdict::Good => {
            let span = item_payload(bytes, 0);
            Parsed::Packet(packet_of(t, bytes_of(bytes, span), base + span.start))
        }
        Verdict::Broken => Parsed::Refused(numbers::BROKEN_DATA),
        Verdict::Wrong => Parsed::Refused(numbers::WRONG_FIELD),
    }
}

// The same by the datagram's type byte: the packet, or the answer's number 8, 9 or 10.
pub fn read_data(kind: u8, bytes: &[u8], base: usize) -> Parsed
    requires { base + length bytes.now < 2 ^ 64 }
    ensures { result ≡ read_data kind base bytes.now }
{
    match type_of(kind) {
        Some(t) => read_as(t, bytes, base),
        None => Parsed::Refused(numbers::UNKNOWN_TYPE),
    }
}

// Parts of a datagram by their place: the items of a payload by number, their values, and the nodes of a list of nodes.
#![tactic(auto)]

ghost use Rattle.std.specs.Prelude.{◌≡◌, length};
ghost use Rattle.octets.specs.Octets as octets;
ghost use Rattle.packet_span.specs.Parts.{bytes_of};
ghost use Rattle.packet_fields.specs.Spans.{span_of, item_span, uint_item, port_item, enr_seq_item, fitting, node_of, nodes_of, node_at};

use node::{Endpoint, Node};
use packet_span::{Span, bytes_of};

// The payload of item `n` of the payload `s`.
#[tactic(auto, using(rlp::proofs::Reading::offset_bound, rlp::proofs::Reading::item_ends))]
pub fn item_payload(s: &[u8], n: usize) -> Span
    ensures { result ≡ span_of n s.now }
{
    let at = rlp::item_offset(s, n);
    let Some(item) = rlp::read_header(&s[at..]) else {
        return Span { start: at, len: 0 };
    };
    Span {
        start: at + item.skip,
        len: item.size,
    }
}

// Item `n` of the payload `s` with its header.
pub fn item_span(s: &[u8], n: usize) -> Span
    ensures { result ≡ item_span n s.now }
{
    let at = rlp::item_offset(s, n);
    let payload = item_payload(s, n);
    Span {
        start: at,
        len: payload.start + payload.len - at,
    }
}

// The integer that item `n` of the payload `s` is; 0 where it is none.
pub fn uint_item(s: &[u8], n: usize) -> u64
    ensures { result ≡ uint_item n s.now }
{
    rlp::read_uint(bytes_of(s, item_payload(s, n))).unwrap_or(0)
}

// The same where it fits 16 bits, else 0.
#[tactic(auto, unfolding(crate::specs::Spans::port_item))]
pub fn port_item(s: &[u8], n: usize) -> u16
    ensures { result ≡ port_item n s.now }
{
    u16::try_from(uint_item(s, n)).unwrap_or(0)
}

pub fn enr_seq_item(s: &[u8], n: usize) -> Option<u64>
    ensures { result ≡ enr_seq_item n s.now }
{
    if n < rlp::item_count(s) {
        Some(uint_item(s, n))
    } else {
        None
    }
}

// Copies `src` to the front of `dst`, if it fits.
fn pad(dst: &mut [u8], src: &[u8])
    ensures { dst.new ≡ octets.store dst.old 0 (fitting (length dst.old) src.now) }
{
    if src.len() <= dst.len() {
        octets::put_bytes(dst, 0, src);
    }
}

fn address_len(p: &[u8]) -> u8
    ensures { result ≡ length (fitting 16 p.now) }
{
    if p.len() <= 16 { p.len() as u8 } else { 0 }
}

// The node of a payload.
fn node_of(p: &[u8]) -> Node
    ensures { result ≡ node_of p.now }
{
    let address_bytes = bytes_of(p, item_payload(p, 0));
    let mut address = [0u8; 16];
    pad(&mut address, address_bytes);
    let mut key = [0u8; 64];
    pad(&mut key, bytes_of(p, item_payload(p, 3)));
    let endpoint = Endpoint {
        len: address_len(address_bytes),
        address,
        udp: port_item(p, 1),
        tcp: port_item(p, 2),
    };
    Node { key, endpoint }
}

// The number of nodes of a Neighbors packet, by its span `nodes`.
pub fn node_count(datagram: &[u8], nodes: Span) -> usize
    ensures { result ≡ length (nodes_of (bytes_of datagram.now nodes)) }
{
    rlp::item_count(bytes_of(datagram, nodes))
}

// Node `n` of a Neighbors packet, counted from 0, by its span `nodes`; a node of zeros where there is none.
pub fn node_at(datagram: &[u8], nodes: Span, n: usize) -> Node
    ensures { result ≡ node_at n (bytes_of datagram.now nodes) }
{
    let s = bytes_of(datagram, nodes);
    node_of(bytes_of(s, item_payload(s, n)))
}

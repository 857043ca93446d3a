// What the writers of packets share: the start of a body, and the parts that more than one packet has.
#![tactic(auto)]

ghost use Rattle.std.specs.Prelude.{◌≡◌, true, ◌∷◌, ◌+◌, ◌≤◌, ◌<◌, ◌^◌, length};
ghost use Rattle.node.specs.Nodes.{is_address, is_address_size};
ghost use Rattle.rlp.specs.Encoding.{header, encode, encodes};
ghost use Rattle.octets.specs.Octets.{store};
ghost use Rattle.packet_model.specs.Items.{endpoint, node, node_item};
ghost use Rattle.packet_model.specs.From.{is_sender_address};
ghost use Rattle.packet_bodies.specs.Parts.{endpoint_items, last_items, node_items, writable_nodes};

use node::Node;

// The third item of `to` in a Ping and a Pong, which is not a field.
pub const TO_TCP: u16 = 0;

// The first `len` of `nodes`.
#[derive(Clone, Copy)]
pub struct NodeList {
    pub len: usize,
    pub nodes: [Node; 16],
}

// The size of a body whose list has `size` bytes of items.
pub fn body_size(size: usize) -> usize
    requires { size < 2 ^ 32 }
    ensures { result ≡ 1 + length (header 192 size) + size }
{
    1 + rlp::header_size(size) + size
}

// Writes the type of a packet and the header of its list, which has `size` bytes of items.
pub fn put_start(buf: &mut [u8], kind: u8, size: usize) -> usize
    requires { 1 + length (header 192 size) ≤ length buf.old }
    ensures next { result ≡ 0 + length (kind ∷ header 192 size) }
    ensures bytes { buf.new ≡ store buf.old 0 (kind ∷ header 192 size) }
{
    buf[0] = kind;
    rlp_write::write_header(buf, 1, 192, size)
}

// The size of the items of an endpoint, whose address may be empty.
fn fields_size(address: &[u8], udp: u16, tcp: u16) -> usize
    requires { is_sender_address address.now ≡ true }
    ensures { (result ≡ length (encodes (endpoint_items address.now udp tcp))) × (result ≤ 23) }
{
    1 + address.len() + rlp_write::uint_size(udp as u64) + rlp_write::uint_size(tcp as u64)
}

// Writes the items of an endpoint.
fn put_fields(buf: &mut [u8], at: usize, address: &[u8], udp: u16, tcp: u16) -> usize
    requires { at + length (encodes (endpoint_items address.now udp tcp)) ≤ length buf.old }
    ensures next { result ≡ at + length (encodes (endpoint_items address.now udp tcp)) }
    ensures bytes { buf.new ≡ store buf.old at (encodes (endpoint_items address.now udp tcp)) }
{
    let a = rlp_write::write_string(buf, at, address);
    let b = rlp_write::write_uint(buf, a, udp as u64);
    rlp_write::write_uint(buf, b, tcp as u64)
}

// The size of an endpoint.
pub fn endpoint_size(address: &[u8], udp: u16, tcp: u16) -> usize
    requires { is_sender_address address.now ≡ true }
    ensures { (result ≡ length (encode (endpoint address.now udp tcp))) × (result ≤ 24) }
{
    1 + fields_size(address, udp, tcp)
}

// Writes an endpoint.
pub fn put_endpoint(buf: &mut [u8], at: usize, address: &[u8], udp: u16, tcp: u16) -> usize
    requires { (is_sender_address address.now ≡ true) × (at + length (encode (endpoint address.now udp tcp)) ≤ length buf.old) }
    ensures next { result ≡ at + length (encode (endpoint address.now udp tcp)) }
    ensures bytes { buf.new ≡ store buf.old at (encode (endpoint address.now udp tcp)) }
{
    let size = fields_size(address, udp, tcp);
    let a = rlp_write::write_header(buf, at, 192, size);
    put_fields(buf, a, address, udp, tcp)
}

// The size of the last items of Ping and Pong: the expiration and, if present, enr-seq.
pub fn last_size(expiration: u64, enr_seq: Option<u64>) -> usize
    ensures { (result ≡ length (encodes (last_items expiration enr_seq))) × (result ≤ 18) }
{
    let size = rlp_write::uint_size(expiration);
    match enr_seq {
        None => size,
        Some(n) => size + rlp_write::uint_size(n),
    }
}

// Writes the last items of Ping and Pong.
pub fn put_last(buf: &mut [u8], at: usize, expiration: u64, enr_seq: Option<u64>) -> usize
    requires { at + length (encodes (last_items expiration enr_seq)) ≤ length buf.old }
    ensures next { result ≡ at + length (encodes (last_items expiration enr_seq)) }
    ensures bytes { buf.new ≡ store buf.old at (encodes (last_items expiration enr_seq)) }
{
    let a = rlp_write::write_uint(buf, at, expiration);
    match enr_seq {
        None => a,
        Some(n) => rlp_write::write_uint(buf, a, n),
    }
}

// Writes a node: the items of its endpoint and its key.
fn put_keyed(buf: &mut [u8], at: usize, address: &[u8], udp: u16, tcp: u16, key: &[u8]) -> usize
    requires { (is_address address.now ≡ true) × (length key.now ≡ 64) × (at + length (encode (node address.now udp tcp key.now)) ≤ length buf.old) }
    ensures next { result ≡ at + length (encode (node address.now udp tcp key.now)) }
    ensures bytes { buf.new ≡ store buf.old at (encode (node address.now udp tcp key.now)) }
{
    let size = fields_size(address, udp, tcp) + 66;
    let a = rlp_write::write_header(buf, at, 192, size);
    let b = put_fields(buf, a, address, udp, tcp);
    rlp_write::write_string(buf, b, key)
}

// Writes a node record.
fn put_node(buf: &mut [u8], at: usize, node: Node) -> usize
    requires { (is_address_size node.endpoint.len ≡ true) × (at + length (encode (node_item node)) ≤ length buf.old) }
    ensures next { result ≡ at + length (encode (node_item node)) }
    ensures bytes { buf.new ≡ store buf.old at (encode (node_item node)) }
{
    let endpoint = node.endpoint;
    let address = &endpoint.address[..endpoint.len as usize];
    put_keyed(buf, at, address, endpoint.udp, endpoint.tcp, &node.key)
}

// The size of a node record.
fn node_size(node: Node) -> usize
    requires { is_address_size node.endpoint.len ≡ true }
    ensures { (result ≡ length (encode (node_item node))) × (result ≤ 91) }
{
    let endpoint = node.endpoint;
    let address = &endpoint.address[..endpoint.len as usize];
    68 + fields_size(address, endpoint.udp, endpoint.tcp)
}

// Whether a list of nodes can be written: at most 12, each with an address of 4 or 16 bytes.
pub fn nodes_writable(list: NodeList) -> bool
    ensures { result ≡ writable_nodes list }
{
    list.len <= 12
        && list.nodes[..list.len]
            .iter()
            .all(|node| node::is_address_size(node.endpoint.len as usize))
}

// The size of all nodes of a list.
pub fn nodes_size(list: NodeList) -> usize
    requires { writable_nodes list ≡ true }
    ensures { (result ≡ length (encodes (node_items list))) × (result ≤ 1092) }
{
    let mut size = 0;
    for node in &list.nodes[..list.len] {
        size += node_size(*node);
    }
    size
}

// Writes all nodes of a list.
pub fn put_nodes(buf: &mut [u8], at: usize, list: NodeList) -> usize
    requires { (writable_nodes list ≡ true) × (at + length (encodes (node_items list)) ≤ length buf.old) }
    ensures next { result ≡ at + length (encodes (node_items list)) }
    ensures bytes { buf.new ≡ store buf.old at (encodes (node_items list)) }
{
    let mut next = at;
    for node in &list.nodes[..list.len] {
        next = put_node(buf, next, *node);
    }
    next
}

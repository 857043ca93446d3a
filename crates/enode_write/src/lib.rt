// A node record as an enode line, written into lent bytes.
#![tactic(auto)]

ghost use Rattle.std.specs.Prelude.{◌≡◌, true, ◌∷◌, ◌+◌, ◌≤◌, length};
ghost use Rattle.octets.specs.Octets.{store};
ghost use Rattle.text.specs.Decimals.{decimal};
ghost use Rattle.written.specs.Written.{written, written_in};
ghost use Rattle.enode.specs.Text.{can_enode, enode_line};
ghost use Rattle.enode_write.specs.Steps.{key_text, address_text, discport_text, ports_end};

use node::Node;
use octets::put_bytes;
use text::{decimal_len, put_decimal, put_marked};
use written::WriteError;

// `enode://` and the key.
fn put_key(buf: &mut [u8], at: usize, key: [u8; 64]) -> usize
    requires { at + length (key_text key) ≤ length buf.old }
    ensures next { result ≡ at + length (key_text key) }
    ensures bytes { buf.new ≡ store buf.old at (key_text key) }
{
    put_bytes(buf, at, b"enode://");
    text::put_hex(buf, at + 8, &key)
}

// A mark and an octet.
fn put_octet(buf: &mut [u8], at: usize, mark: u8, octet: u8) -> usize
    requires { at + length (mark ∷ decimal octet) ≤ length buf.old }
    ensures next { result ≡ at + length (mark ∷ decimal octet) }
    ensures bytes { buf.new ≡ store buf.old at (mark ∷ decimal octet) }
{
    put_marked(buf, at, mark, octet as u64)
}

// `@` and the IPv4 address.
fn put_address(buf: &mut [u8], at: usize, address: [u8; 16]) -> usize
    requires { at + length (address_text address) ≤ length buf.old }
    ensures next { result ≡ at + length (address_text address) }
    ensures bytes { buf.new ≡ store buf.old at (address_text address) }
{
    let next = put_octet(buf, at, b'@', address[0]);
    let next = put_octet(buf, next, b'.', address[1]);
    let next = put_octet(buf, next, b'.', address[2]);
    put_octet(buf, next, b'.', address[3])
}

// `?discport=` and the UDP port, where it differs from the TCP port.
fn put_discport(buf: &mut [u8], at: usize, udp: u16, tcp: u16) -> usize
    requires { at + length (discport_text udp tcp) ≤ length buf.old }
    ensures next { result ≡ at + length (discport_text udp tcp) }
    ensures bytes { buf.new ≡ store buf.old at (discport_text udp tcp) }
{
    if udp == tcp {
        return at;
    }
    put_bytes(buf, at, b"?discport=");
    put_decimal(buf, at + 10, udp as u64)
}

// `:`, the ports and the 0A.
fn put_ports(buf: &mut [u8], at: usize, udp: u16, tcp: u16) -> usize
    requires { at + length (ports_end udp tcp) ≤ length buf.old }
    ensures next { result ≡ at + length (ports_end udp tcp) }
    ensures bytes { buf.new ≡ store buf.old at (ports_end udp tcp) }
{
    let next = put_marked(buf, at, b':', tcp as u64);
    let next = put_discport(buf, next, udp, tcp);
    octets::put_byte(buf, next, 10);
    next + 1
}

// Writes the line of a node with an IPv4 address from index `at`, its 0A too, and returns the index after it.
pub fn put_enode(buf: &mut [u8], at: usize, node: Node) -> usize
    requires { (can_enode node ≡ true) × (at + length (enode_line node) ≤ length buf.old) }
    ensures next { result ≡ at + length (enode_line node) }
    ensures bytes { buf.new ≡ store buf.old at (enode_line node) }
{
    let key = node.key;
    let endpoint = node.endpoint;
    let address = endpoint.address;
    let next = put_key(buf, at, key);
    let next = put_address(buf, next, address);
    put_ports(buf, next, endpoint.udp, endpoint.tcp)
}

// The digits of an octet.
fn octet_len(octet: u8) -> usize
    ensures size { result ≡ length (decimal octet) }
    ensures few { result ≤ 3 }
{
    decimal_len(octet as u64)
}

// The digits of a port.
fn port_len(port: u16) -> usize
    ensures size { result ≡ length (decimal port) }
    ensures few { result ≤ 5 }
{
    decimal_len(port as u64)
}

// The bytes of an IPv4 address with its marks.
fn address_size(address: [u8; 16]) -> usize
    ensures size { result ≡ length (address_text address) }
    ensures few { result ≤ 16 }
{
    let a = octet_len(address[0]);
    let b = octet_len(address[1]);
    let c = octet_len(address[2]);
    let d = octet_len(address[3]);
    4 + a + b + c + d
}

// The bytes of the ports with their marks and the 0A.
fn ports_size(udp: u16, tcp: u16) -> usize
    ensures size { result ≡ length (ports_end udp tcp) }
    ensures few { result ≤ 22 }
{
    let one = 2 + port_len(tcp);
    if udp == tcp {
        return one;
    }
    one + 10 + port_len(udp)
}

// The bytes of a node's line with its 0A, at most 174.
pub fn enode_size(node: Node) -> usize
    requires { can_enode node ≡ true }
    ensures size { result ≡ length (enode_line node) }
    ensures few { result ≤ 174 }
{
    let endpoint = node.endpoint;
    let address = endpoint.address;
    136 + address_size(address) + ports_size(endpoint.udp, endpoint.tcp)
}

// Whether a node can be written as an enode line: its address has 4 bytes.
pub fn is_writable(node: Node) -> bool
    ensures { result ≡ can_enode node }
{
    node.endpoint.len == 4
}

// Writes the line of a node with its 0A at the start of the room. An address of any length but 4 can't be written.
pub fn write_enode(buf: &mut [u8], node: Node) -> Result<usize, WriteError>
    ensures answer { result ≡ written (can_enode node) (enode_line node) buf.old }
    ensures bytes { buf.new ≡ written_in (can_enode node) (enode_line node) buf.old }
{
    if !is_writable(node) {
        return Err(WriteError::Unwritable);
    }
    if buf.len() < enode_size(node) {
        return Err(WriteError::Short);
    }
    Ok(put_enode(buf, 0, node))
}

// One line of a boot list: an enode URL.
#![tactic(auto)]

ghost use Rattle.std.specs.Prelude.{◌≡◌, [], ◌∷◌, ◌≤◌, length};
ghost use Rattle.octets.specs.Octets.{part};
ghost use Rattle.lists.specs.Lists.{all};
ghost use Rattle.text.specs.Hex.{is_any_hex_digit, unhex};
ghost use Rattle.enode.specs.Reading.{field_at, ports_of, is_keyed, octets_from, enode_of};
ghost use Rattle.enode.specs.Reading as spec;

use node::{Endpoint, Node};
use text::{find, read_decimal};

// A number up to a mark, and the index after the mark.
#[derive(Clone, Copy, Debug, PartialEq, Eq)]
pub struct Field {
    pub value: u64,
    pub next: usize,
}

// UDP port and TCP port.
#[derive(Clone, Copy, Debug, PartialEq, Eq)]
pub struct Ports {
    pub udp: u16,
    pub tcp: u16,
}

// A hex digit of either case.
fn is_any_hex_digit(b: u8) -> bool
    ensures { result ≡ is_any_hex_digit b }
{
    matches!(b, b'0'..=b'9' | b'A'..=b'F' | b'a'..=b'f')
}

// Whether a text is hex digits of either case.
fn are_hex_digits(s: &[u8]) -> bool
    ensures { result ≡ all is_any_hex_digit s.now }
{
    s.iter().all(|b| is_any_hex_digit(*b))
}

// Whether a line begins with `enode://`, a key's hex and `@`.
fn is_keyed(line: &[u8]) -> bool
    ensures { result ≡ is_keyed line.now }
{
    line.len() >= 137
        && line.starts_with(b"enode://")
        && are_hex_digits(&line[8..136])
        && line[136] == b'@'
}

// The decimal of at most `limit` from index `at` up to the next `mark`, which must be there.
fn field_at(s: &[u8], at: usize, mark: u8, limit: u64) -> Option<Field>
    requires { at ≤ length s.now }
    ensures { result ≡ field_at mark limit s.now at }
{
    let end = find(s, at, mark);
    if end == s.len() {
        return None;
    }
    let value = read_decimal(&s[at..end], limit)?;
    Some(Field {
        value,
        next: end + 1,
    })
}

const MAX_PORT: u64 = 65535;

// The ports where the TCP port ended at index `at`: the end, or `?discport=` and a UDP port that differs.
fn udp_from(s: &[u8], at: usize, tcp: u64) -> Option<Ports>
    requires { (at ≤ length s.now) × (tcp ≤ 65535) }
    ensures { result ≡ spec.udp_from s.now at tcp }
{
    if at == s.len() {
        return Some(Ports {
            udp: tcp as u16,
            tcp: tcp as u16,
        });
    }
    let digits = s[at..].strip_prefix(b"?discport=")?;
    let udp = read_decimal(digits, MAX_PORT)?;
    if udp == tcp {
        return None;
    }
    Some(Ports {
        udp: udp as u16,
        tcp: tcp as u16,
    })
}

// The ports from index `at`.
fn ports_of(s: &[u8], at: usize) -> Option<Ports>
    requires { at ≤ length s.now }
    ensures { result ≡ ports_of s.now at }
{
    let end = find(s, at, b'?');
    let tcp = read_decimal(&s[at..end], MAX_PORT)?;
    udp_from(s, end, tcp)
}

// The key of a line that begins with one.
fn key_of(line: &[u8]) -> [u8; 64]
    requires { 137 ≤ length line.now }
    ensures { result ≡ unhex (part line.now 8 128) }
{
    let mut key = [0; 64];
    text::put_unhex(&mut key, 0, &line[8..136]);
    key
}

const MAX_OCTET: u64 = 255;

// What a line says that begins with a key.
fn read_keyed(line: &[u8]) -> Option<Node>
    requires { 137 ≤ length line.now }
    ensures { result ≡ octets_from (unhex (part line.now 8 128)) [] (0x2e ∷ 0x2e ∷ 0x2e ∷ 0x3a ∷ []) line.now 137 }
{
    let mut address = [0; 16];
    let mut at = 137;
    for (i, mark) in b"...:".iter().enumerate() {
        let octet = field_at(line, at, *mark, MAX_OCTET)?;
        address[i] = octet.value as u8;
        at = octet.next;
    }
    let Ports { udp, tcp } = ports_of(line, at)?;
    let key = key_of(line);
    let endpoint = Endpoint {
        len: 4,
        address,
        udp,
        tcp,
    };
    Some(Node { key, endpoint })
}

// What a line says, without its 0A: a node, if it fits.
pub fn read_enode(line: &[u8]) -> Option<Node>
    ensures { result ≡ enode_of line.now }
{
    if is_keyed(line) {
        read_keyed(line)
    } else {
        None
    }
}

// Strict RLP (Ethereum's encoding): headers, strings and integers, written into lent slices.
#![tactic(auto)]

ghost use Rattle.std.specs.Prelude.{◌≡◌, ◌+◌, ◌≤◌, length};
ghost use Rattle.octets.specs.Octets.{store};
ghost use Rattle.rlp.specs.Numbers.{uint_bytes};
ghost use Rattle.rlp.specs.Encoding.{header, encode};
ghost use Rattle.rlp.specs.Encoding as rlp;

use octets::{put_bytes, put_number};
use rlp::uint_len;

// Writes the bytes of an integer from index `at`, and returns the index after them.
pub fn write_digits(buf: &mut [u8], at: usize, n: u64) -> usize
    requires { at + length (uint_bytes n) ≤ length buf.old }
    ensures next { result ≡ at + length (uint_bytes n) }
    ensures bytes { buf.new ≡ store buf.old at (uint_bytes n) }
{
    let k = uint_len(n);
    put_number(buf, at, k, n);
    at + k
}

// Writes the header of a payload of `n` bytes; `base` is 0x80 for a string and 0xc0 for a list.
pub fn write_header(buf: &mut [u8], at: usize, base: u8, n: usize) -> usize
    requires { (base ≤ 192) × (at + length (header base n) ≤ length buf.old) }
    ensures next { result ≡ at + length (header base n) }
    ensures bytes { buf.new ≡ store buf.old at (header base n) }
{
    if n < 56 {
        buf[at] = base + n as u8;
        return at + 1;
    }
    let k = uint_len(n as u64);
    buf[at] = base + 55 + k as u8;
    write_digits(buf, at + 1, n as u64)
}

// Writes a string as an item.
pub fn write_string(buf: &mut [u8], at: usize, s: &[u8]) -> usize
    requires { at + length (encode (rlp.string s.now)) ≤ length buf.old }
    ensures next { result ≡ at + length (encode (rlp.string s.now)) }
    ensures bytes { buf.new ≡ store buf.old at (encode (rlp.string s.now)) }
{
    if s.len() == 1 {
        let b = s[0];
        if b < 128 {
            buf[at] = b;
            return at + 1;
        }
    }
    let next = write_header(buf, at, 128, s.len());
    put_bytes(buf, next, s);
    next + s.len()
}

// Writes an integer as an item.
pub fn write_uint(buf: &mut [u8], at: usize, n: u64) -> usize
    requires { at + length (encode (rlp.string (uint_bytes n))) ≤ length buf.old }
    ensures next { result ≡ at + length (encode (rlp.string (uint_bytes n))) }
    ensures bytes { buf.new ≡ store buf.old at (encode (rlp.string (uint_bytes n))) }
{
    if 0 < n {
        if n < 128 {
            buf[at] = n as u8;
            return at + 1;
        }
    }
    buf[at] = 128 + uint_len(n) as u8;
    write_digits(buf, at + 1, n)
}

// The size of an integer as an item.
pub fn uint_size(n: u64) -> usize
    ensures { result ≡ length (encode (rlp.string (uint_bytes n))) }
{
    if n < 128 { 1 } else { 1 + uint_len(n) }
}

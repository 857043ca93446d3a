// A C boundary of `rlp`, for comparison with another implementation (tests/rlp). A slice is a pointer and a length.
#![tactic(auto)]

ghost use Rattle.std.specs.Prelude.{◌≡◌, ◌+◌, ◌≤◌, length};
ghost use Rattle.octets.specs.Octets.{store};
ghost use Rattle.rlp.specs.Numbers.{uint_bytes};
ghost use Rattle.rlp.specs.Encoding.{header, encode, string};
ghost use Rattle.rlp.specs.Reading.{head, whole, count, offset, uint_of};
ghost use Rattle.rlp_capi.specs.Boundary.{kind_of, skip_of, is_integer, value_of};

// What stands at the front of `s`: 0 no item, 1 a string, 2 a list.
#[unsafe(no_mangle)]
pub extern "C" fn rlp_kind(s: &[u8]) -> u64
    ensures { result ≡ kind_of (head s.now) }
{
    match rlp::read_header(s) {
        Some(item) => if item.list { 2 } else { 1 },
        None => 0,
    }
}

// The bytes before its payload.
#[unsafe(no_mangle)]
pub extern "C" fn rlp_skip(s: &[u8]) -> usize
    ensures { result ≡ skip_of (head s.now) }
{
    rlp::read_header(s).map_or(0, |item| item.skip)
}

#[unsafe(no_mangle)]
pub extern "C" fn rlp_whole(s: &[u8]) -> bool
    ensures { result ≡ whole s.now }
{
    rlp::items_whole(s)
}

#[unsafe(no_mangle)]
pub extern "C" fn rlp_count(s: &[u8]) -> usize
    ensures { result ≡ count s.now }
{
    rlp::item_count(s)
}

#[unsafe(no_mangle)]
pub extern "C" fn rlp_offset(s: &[u8], n: usize) -> usize
    ensures { result ≡ offset n s.now }
{
    rlp::item_offset(s, n)
}

// Whether a string's bytes are an integer of at most 64 bits, and which.
#[unsafe(no_mangle)]
pub extern "C" fn rlp_is_uint(s: &[u8]) -> bool
    ensures { result ≡ is_integer (uint_of s.now) }
{
    rlp::read_uint(s).is_some()
}

#[unsafe(no_mangle)]
pub extern "C" fn rlp_uint(s: &[u8]) -> u64
    ensures { result ≡ value_of (uint_of s.now) }
{
    rlp::read_uint(s).unwrap_or(0)
}

// Writes a string as an item, and returns its size.
#[unsafe(no_mangle)]
pub extern "C" fn rlp_write_string(buf: &mut [u8], s: &[u8]) -> usize
    requires { 9 + length s.now ≤ length buf.old }
    ensures size { result ≡ length (encode (string s.now)) }
    ensures bytes { buf.new ≡ store buf.old 0 (encode (string s.now)) }
{
    rlp_write::write_string(buf, 0, s)
}

// Writes an integer as an item, and returns its size.
#[unsafe(no_mangle)]
pub extern "C" fn rlp_write_uint(buf: &mut [u8], n: u64) -> usize
    requires { 9 ≤ length buf.old }
    ensures size { result ≡ length (encode (string (uint_bytes n))) }
    ensures bytes { buf.new ≡ store buf.old 0 (encode (string (uint_bytes n))) }
{
    rlp_write::write_uint(buf, 0, n)
}

// Writes the header of a list whose payload has `n` bytes, and returns its size.
#[unsafe(no_mangle)]
pub extern "C" fn rlp_write_list_header(buf: &mut [u8], n: usize) -> usize
    requires { 9 ≤ length buf.old }
    ensures size { result ≡ length (header 192 n) }
    ensures bytes { buf.new ≡ store buf.old 0 (header 192 n) }
{
    rlp_write::write_header(buf, 0, 192, n)
}

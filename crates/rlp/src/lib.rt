// Strict RLP (Ethereum's encoding): headers, items and integers, read from slices, and their sizes.
#![tactic(auto)]

ghost use Rattle.std.specs.Prelude.{◌≡◌, ◌+◌, ◌≤◌, ◌<◌, length, drop};
ghost use Rattle.rlp.specs.Numbers.{uint_bytes};
ghost use Rattle.rlp.specs.Encoding.{header};
ghost use Rattle.rlp.specs.Reading.{head, extent, whole, count, offset, uint_of};
ghost use Rattle.rlp.specs.Reading as spec;

use octets::number_at;

// An item at the front of a slice: its payload is the `size` bytes after the first `skip`.
#[derive(Clone, Copy, Debug, PartialEq, Eq)]
pub struct Item {
    pub list: bool,
    pub skip: usize,
    pub size: usize,
}

// An item whose payload is the `size` bytes after the first `skip`, if the slice has them.
fn within(s: &[u8], list: bool, skip: usize, size: usize) -> Option<Item>
    requires { skip ≤ length s.now }
    ensures { result ≡ spec.within s.now list skip size }
{
    if size <= s.len() - skip {
        Some(Item { list, skip, size })
    } else {
        None
    }
}

// A payload of 56 bytes or more, whose size is spelt by the `k` bytes after the first.
#[tactic(auto, unfolding(crate::specs::Reading::long))]
fn long(s: &[u8], list: bool, k: usize) -> Option<Item>
    requires { (0 < length s.now) × (0 < k) × (k ≤ 8) }
    ensures { result ≡ spec.long s.now list k }
{
    if s.len() - 1 < k || s[1] == 0 {
        return None;
    }
    let size = number_at(s, 1, k);
    if size < 56 {
        return None;
    }
    within(s, list, 1 + k, size as usize)
}

// The item of a header byte that is `tag` more than its kind's base.
#[tactic(auto, unfolding(crate::specs::Reading::sized))]
fn sized(s: &[u8], list: bool, tag: usize) -> Option<Item>
    requires { (0 < length s.now) × (tag < 64) }
    ensures { result ≡ spec.sized s.now list tag }
{
    if tag < 56 {
        within(s, list, 1, tag)
    } else {
        long(s, list, tag - 55)
    }
}

// The item at the front of a slice; none where it is not whole, or not shortest-form.
#[tactic(auto, unfolding(crate::specs::Reading::head, crate::specs::Reading::strict))]
pub fn read_header(s: &[u8]) -> Option<Item>
    ensures { result ≡ head s.now }
{
    let b = usize::from(*s.first()?);
    if b < 128 {
        return Some(Item {
            list: false,
            skip: 0,
            size: 1,
        });
    }
    let item = if b < 192 {
        strict(s, sized(s, false, b - 128))?
    } else {
        sized(s, true, b - 192)?
    };
    // field by field: an item moved whole takes its padding along, which makes a header cost twice as much
    Some(Item {
        list: item.list,
        skip: item.skip,
        size: item.size,
    })
}

// A string of one byte below 0x80 has no header.
#[tactic(auto, unfolding(crate::specs::Reading::strict))]
fn strict(s: &[u8], found: Option<Item>) -> Option<Item>
    ensures { result ≡ spec.strict s.now found }
{
    let item = found?;
    if item.size == 1 && (s.len() <= 1 || s[1] < 128) {
        return None;
    }
    found
}

// Where the item at `at` ends: `at` itself where none stands there.
#[tactic(auto, using(crate::proofs::Reading::item_ends))]
fn item_end(s: &[u8], at: usize) -> usize
    requires { at ≤ length s.now }
    ensures { result ≡ at + extent (head (drop at s.now)) }
{
    let Some(item) = read_header(&s[at..]) else {
        return at;
    };
    at + item.skip + item.size
}

// Whether a payload is whole items and nothing else.
pub fn items_whole(s: &[u8]) -> bool
    ensures { result ≡ whole s.now }
{
    let mut at = 0;
    while at < s.len() {
        let end = item_end(s, at);
        if end == at {
            return false;
        }
        at = end;
    }
    true
}

// The number of items of a payload; of those before the first that is broken.
pub fn item_count(s: &[u8]) -> usize
    ensures { result ≡ count s.now }
{
    let mut at = 0;
    let mut n = 0;
    while at < s.len() {
        let end = item_end(s, at);
        if end == at {
            return n;
        }
        at = end;
        n += 1;
    }
    n
}

// Where item `n` of a payload begins; where it has fewer, the end of its last.
pub fn item_offset(s: &[u8], n: usize) -> usize
    ensures { result ≡ offset n s.now }
{
    let mut at = 0;
    for _ in 0..n {
        let end = item_end(s, at);
        if end == at {
            return at;
        }
        at = end;
    }
    at
}

// The integer that a string's bytes spell; none of more than eight bytes, or of a leading zero.
#[tactic(auto, unfolding(crate::specs::Reading::uint_of))]
pub fn read_uint(s: &[u8]) -> Option<u64>
    ensures { result ≡ uint_of s.now }
{
    if 8 < s.len() || matches!(s, [0, ..]) {
        return None;
    }
    Some(number_at(s, 0, s.len()))
}

// The number of bytes of an integer.
pub fn uint_len(n: u64) -> usize
    ensures { result ≡ length (uint_bytes n) }
{
    let mut v = n;
    let mut k = 0;
    while 0 < v {
        v = v / 256;
        k += 1;
    }
    k
}

// The size of the header of a payload of `n` bytes, of either kind.
pub fn header_size(n: usize) -> usize
    ensures { (result ≡ length (header 192 n)) × (result ≤ 9) }
{
    if n < 56 { 1 } else { 1 + uint_len(n as u64) }
}

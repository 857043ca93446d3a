// Ranges: how many entries of a list share the first three bytes of a 4-byte address, and who may take an entry beside them.
#![tactic(auto)]

ghost use Rattle.std.specs.Prelude.{◌≡◌, ◌+◌, ◌*◌, ◌≤◌, cond, not, length};
ghost use Rattle.octets.specs.Octets.{part};
ghost use Rattle.lists.specs.Lists.{all};
ghost use Rattle.entry.specs.Layout.{decode_entry};
ghost use Rattle.bucket_model.specs.Contents.{entries_at};
ghost use Rattle.bucket_model.specs.Rules.{same_range, range_count, range_full, may_take, is_promoted};
ghost use Rattle.bucket_model.specs.Sound.{ranges_kept};
ghost use Rattle.bucket.specs.Steps.{listed};

use bucket::{Bucket, EntryList};
use entry::Entry;
use node::Endpoint;

// The most entries of a range in a bucket.
pub const MOST: usize = 2;

// Whether two endpoints share a range. The third byte of the addresses is the one that differs most often.
pub fn same_range(a: Endpoint, b: Endpoint) -> bool
    ensures { result ≡ same_range a b }
{
    let one = a.address;
    let other = b.address;
    if one[2] != other[2] {
        return false;
    }
    if a.len != 4 {
        return false;
    }
    if b.len != 4 {
        return false;
    }
    octets::same_bytes(&one[..3], &other[..3])
}

pub fn count(b: bool) -> usize
    ensures { result ≡ cond b 1 0 }
{
    usize::from(b)
}

// How many entries of a list share the endpoint's range.
fn range_count(l: EntryList, a: Endpoint) -> usize
    requires { l.len ≤ 16 }
    ensures { result ≡ range_count a (listed l) }
{
    l.items[..l.len]
        .iter()
        .filter(|e| same_range(a, e.endpoint))
        .count()
}

// Whether the endpoint's range has all the entries that it may have.
pub fn range_full(l: EntryList, a: Endpoint) -> bool
    requires { l.len ≤ 16 }
    ensures { result ≡ range_full (listed l) a }
{
    MOST <= range_count(l, a)
}

// Whether a node at this endpoint may take an entry beside these.
pub fn may_take(l: EntryList, a: Endpoint) -> bool
    requires { l.len ≤ 16 }
    ensures { result ≡ may_take (listed l) a }
{
    if l.len < Bucket::ENTRIES {
        return !range_full(l, a);
    }
    false
}

// ---- on the bytes of a bucket, records of 143 bytes where they lie

// Whether the records at two indices share a range.
fn same_range_at(bytes: &[u8], a: usize, b: usize) -> bool
    requires { (a + 143 ≤ length bytes.now) × (b + 143 ≤ length bytes.now) }
    ensures { result ≡ same_range (decode_entry (part bytes.now a 143)).endpoint (decode_entry (part bytes.now b 143)).endpoint }
{
    if bytes[a + 67] != bytes[b + 67] {
        return false;
    }
    if bytes[a + 64] != 4 {
        return false;
    }
    if bytes[b + 64] != 4 {
        return false;
    }
    let one = a + 65;
    let one_end = a + 68;
    let other = b + 65;
    let other_end = b + 68;
    octets::same_bytes(&bytes[one..one_end], &bytes[other..other_end])
}

// How many of `n` records from index `at` share the range of the one at index `a`.
fn range_count_at(bytes: &[u8], a: usize, at: usize, n: usize) -> usize
    requires { (a + 143 ≤ length bytes.now) × ((at + n * 143 ≤ length bytes.now) × (n ≤ 16)) }
    ensures { result ≡ range_count (decode_entry (part bytes.now a 143)).endpoint (entries_at bytes.now at n) }
{
    let mut k = 0;
    for i in 0..n {
        k += usize::from(same_range_at(bytes, a, at + i * Entry::SIZE));
    }
    k
}

// Whether no range has more of `n` records from index `at` than it may have: none has as many behind it.
pub fn ranges_kept(bytes: &[u8], at: usize, n: usize) -> bool
    requires { (at + n * 143 ≤ length bytes.now) × (n ≤ 16) }
    ensures { result ≡ ranges_kept (entries_at bytes.now at n) }
{
    for i in 0..n {
        let a = at + i * Entry::SIZE;
        if MOST <= range_count_at(bytes, a, a + Entry::SIZE, n - i - 1) {
            return false;
        }
    }
    true
}

// Whether the record at index `a` is proved and may take an entry beside `n` from index `at`.
fn is_promoted_at(bytes: &[u8], a: usize, at: usize, n: usize) -> bool
    requires { (a + 143 ≤ length bytes.now) × ((at + n * 143 ≤ length bytes.now) × (n ≤ 16)) }
    ensures { result ≡ is_promoted (entries_at bytes.now at n) (decode_entry (part bytes.now a 143)) }
{
    if bytes[a + 93] == 0 {
        return false;
    }
    if Bucket::ENTRIES <= n {
        return false;
    }
    range_count_at(bytes, a, at, n) < MOST
}

// Whether none of `m` records from index `line` is proved and may take an entry beside `n` from index `at`.
pub fn line_settled(bytes: &[u8], at: usize, n: usize, line: usize, m: usize) -> bool
    requires { ((at + n * 143 ≤ length bytes.now) × (n ≤ 16)) × ((line + m * 143 ≤ length bytes.now) × (m ≤ 16)) }
    ensures { result ≡ all (λ e. not (is_promoted (entries_at bytes.now at n) e)) (entries_at bytes.now line m) }
{
    for i in 0..m {
        if is_promoted_at(bytes, line + i * Entry::SIZE, at, n) {
            return false;
        }
    }
    true
}

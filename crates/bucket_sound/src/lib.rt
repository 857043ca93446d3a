// Whether a bucket's bytes are sound, tested where they lie.
#![tactic(auto)]

ghost use Rattle.std.specs.Prelude.{◌≡◌, true, not, cond, ◌&&◌, ◌+◌, ◌*◌, ◌≤◌, length, replicate};
ghost use Rattle.octets.specs.Octets.{part, same_bytes};
ghost use Rattle.lists.specs.Lists.{any};
ghost use Rattle.distance.specs.Distance.{home};
ghost use Rattle.entry.specs.Layout.{decode_endpoint, proof_of, ping_of};
ghost use Rattle.bucket_model.specs.Contents.{entries_at};
ghost use Rattle.bucket_model.specs.Rules.{is_of, is_proved, is_out};
ghost use Rattle.bucket_model.specs.Sound.{address_form, sound};
ghost use Rattle.bucket_sound.specs.Steps.{home_if, stamp_form, stamp_by, record_sound, all_records, keys_apart};

use bucket::Bucket;
use bucket_entry::both;
use entry::{Entry, Stamp};
use node::MonotonicMillis;

fn stamp_form(s: Stamp) -> bool
    ensures { result ≡ stamp_form s }
{
    if s.flag == 1 {
        return true;
    }
    both(s.flag == 0, s.time == 0)
}

fn stamp_by(s: Stamp, clock: MonotonicMillis) -> bool
    ensures { result ≡ stamp_by clock.0 s }
{
    if s.flag == 0 {
        return true;
    }
    s.time <= clock.0
}

fn may_stand(proof: Stamp, ping: Stamp, proved: bool, unproved: bool) -> bool
    ensures { result ≡ cond (is_proved (proof_of proof)) proved (unproved && is_out (ping_of ping)) }
{
    if proof.flag == 0 {
        return both(unproved, ping.flag != 0);
    }
    proved
}

// Whether `n` bytes from index `at` are zero. No way out before the end: so the loop is compiled to wide steps.
fn zeros(bytes: &[u8], at: usize, n: usize) -> bool
    requires { at + n ≤ length bytes.now }
    ensures { result ≡ same_bytes (replicate n 0) (part bytes.now at n) }
{
    let mut any = 0;
    for b in &bytes[at..at + n] {
        any |= *b;
    }
    any == 0
}

fn address_form(bytes: &[u8], at: usize) -> bool
    requires { at + 21 ≤ length bytes.now }
    ensures { result ≡ address_form (decode_endpoint (part bytes.now at 21)) }
{
    let len = bytes[at];
    if len == 16 {
        return true;
    }
    both(len == 4, zeros(bytes, at + 5, 12))
}

fn in_bucket(bytes: &[u8], at: usize, own: &[u8], number: usize) -> bool
    requires { (at + 64 ≤ length bytes.now) × (length own.now ≡ 32) }
    ensures { result ≡ home own.now number (part bytes.now at 64) }
{
    let end = at + 64;
    distance::in_bucket(own, number, &bytes[at..end])
}

// The own-bucket rule of the record at index `at`, where it is to be tested.
fn at_home(bytes: &[u8], at: usize, own: &[u8], number: usize, tested: bool) -> bool
    requires { (at + 64 ≤ length bytes.now) × (length own.now ≡ 32) }
    ensures { result ≡ home_if tested own.now number (part bytes.now at 64) }
{
    if tested {
        return in_bucket(bytes, at, own, number);
    }
    true
}

// Whether the record at index `at` keeps what each record of a sound bucket keeps.
fn record_sound(
    bytes: &[u8],
    at: usize,
    own: &[u8],
    number: usize,
    clock: MonotonicMillis,
    proved: bool,
    unproved: bool,
    tested: bool,
) -> bool
    requires { (at + 143 ≤ length bytes.now) × (length own.now ≡ 32) }
    ensures { result ≡ record_sound (home_if tested own.now number) clock.0 proved unproved (part bytes.now at 143) }
{
    let seen = octets::number_at(bytes, at + 85, 8);
    let proof = entry::load_stamp(bytes, at + 93);
    let ping = entry::load_stamp(bytes, at + 102);
    let form = both(stamp_form(proof), stamp_form(ping));
    let stamps = both(stamp_by(proof, clock), stamp_by(ping, clock));
    let times = both(seen <= clock.0, stamps);
    let stands = both(
        may_stand(proof, ping, proved, unproved),
        address_form(bytes, at + 64),
    );
    let shape = both(form, both(times, stands));
    if shape {
        return at_home(bytes, at, own, number, tested);
    }
    false
}

fn records_sound(
    bytes: &[u8],
    at: usize,
    n: usize,
    own: &[u8],
    number: usize,
    clock: MonotonicMillis,
    proved: bool,
    unproved: bool,
    tested: bool,
) -> bool
    requires { (at + n * 143 ≤ length bytes.now) × ((n ≤ 16) × (length own.now ≡ 32)) }
    ensures { result ≡ all_records (record_sound (home_if tested own.now number) clock.0 proved unproved) bytes.now at n }
{
    for i in 0..n {
        if !record_sound(
            bytes,
            at + i * Entry::SIZE,
            own,
            number,
            clock,
            proved,
            unproved,
            tested,
        ) {
            return false;
        }
    }
    true
}

// Whether the records at two indices have the same key.
fn same_key(bytes: &[u8], a: usize, b: usize) -> bool
    requires { (a + 64 ≤ length bytes.now) × (b + 64 ≤ length bytes.now) }
    ensures { result ≡ same_bytes (part bytes.now a 64) (part bytes.now b 64) }
{
    let a_end = a + 64;
    let b_end = b + 64;
    octets::same_bytes(&bytes[a..a_end], &bytes[b..b_end])
}

// Whether the key at index `key` is none of those of `n` records from index `at`.
fn absent(bytes: &[u8], key: usize, at: usize, n: usize) -> bool
    requires { (key + 64 ≤ length bytes.now) × ((at + n * 143 ≤ length bytes.now) × (n ≤ 16)) }
    ensures { result ≡ not (any (is_of (part bytes.now key 64)) (entries_at bytes.now at n)) }
{
    for i in 0..n {
        if same_key(bytes, key, at + i * Entry::SIZE) {
            return false;
        }
    }
    true
}

fn keys_apart(bytes: &[u8], at: usize, n: usize, other: usize, m: usize) -> bool
    requires { ((at + n * 143 ≤ length bytes.now) × (n ≤ 16)) × ((other + m * 143 ≤ length bytes.now) × (m ≤ 16)) }
    ensures { result ≡ keys_apart bytes.now at n other m }
{
    for i in 0..n {
        let key = at + i * Entry::SIZE;
        if !(absent(bytes, key, key + Entry::SIZE, n - i - 1) && absent(bytes, key, other, m)) {
            return false;
        }
    }
    true
}

// Whether the bytes of the bucket from index `at` are sound, the own-bucket rule left out where it is not to be tested.
fn sound_where(
    bytes: &[u8],
    at: usize,
    own: &[u8],
    number: usize,
    clock: MonotonicMillis,
    tested: bool,
) -> bool
    requires { (at + 2862 ≤ length bytes.now) × (length own.now ≡ 32) }
    ensures { result ≡ sound (home_if tested own.now number) clock.0 (part bytes.now at 2862) }
{
    let n = bytes[at] as usize;
    let m = bytes[at + 1] as usize;
    if Bucket::ENTRIES < n {
        return false;
    }
    if Bucket::REPLACEMENTS < m {
        return false;
    }
    let first = at + 2;
    let line = at + Bucket::REPLACEMENTS_AT;
    let unused = both(
        zeros(
            bytes,
            first + n * Entry::SIZE,
            (Bucket::ENTRIES - n) * Entry::SIZE,
        ),
        zeros(
            bytes,
            line + m * Entry::SIZE,
            (Bucket::REPLACEMENTS - m) * Entry::SIZE,
        ),
    );
    let keys = both(
        keys_apart(bytes, first, n, line, m),
        keys_apart(bytes, line, m, line, 0),
    );
    let entries = records_sound(bytes, first, n, own, number, clock, true, false, tested);
    let replacements = records_sound(bytes, line, m, own, number, clock, true, true, tested);
    let ranges = both(
        bucket_range::ranges_kept(bytes, first, n),
        bucket_range::line_settled(bytes, first, n, line, m),
    );
    let form = both(both(unused, keys), ranges);
    both(form, both(entries, replacements))
}

// Whether the bytes of the bucket from index `at` are sound, in the table of the node with the hash `own`, at the table's clock.
pub fn sound(bytes: &[u8], at: usize, own: &[u8], number: usize, clock: MonotonicMillis) -> bool
    requires { (at + 2862 ≤ length bytes.now) × (length own.now ≡ 32) }
    ensures { result ≡ sound (home own.now number) clock.0 (part bytes.now at 2862) }
{
    sound_where(bytes, at, own, number, clock, true)
}

// Whether they keep all of soundness but the own-bucket rule: for a caller that hashes the keys itself.
pub fn settled(bytes: &[u8], at: usize, clock: MonotonicMillis) -> bool
    requires { at + 2862 ≤ length bytes.now }
    ensures { result ≡ sound (λ key. true) clock.0 (part bytes.now at 2862) }
{
    let none = [0u8; 32];
    sound_where(bytes, at, &none, 0, clock, false)
}

// The printout of a table in lent bytes, as text.
#![tactic(auto)]

ghost use Rattle.std.specs.Prelude.{◌≡◌, true, ◌+◌, ◌≤◌, ◌-◌, ◌<◌, length};
ghost use Rattle.octets.specs.Octets.{store};
ghost use Rattle.table_model.specs.Layout.{buckets_of, count_of, bucket_at};
ghost use Rattle.table_model.specs.Sound.{table_sound};
ghost use Rattle.printout.specs.TableRow.{entry_total, replacement_total, table_row};
ghost use Rattle.printout.specs.Steps.{EntriesIn, BucketIn};
ghost use Rattle.bucket_model.specs.Contents.{entries_at};
ghost use Rattle.printout.specs.Printout.{entry_rows, bucket_rows, buckets_rows, printout, printout_room};

use bucket::Bucket;
use entry::Entry;
use printout_entry::put_entry;
use printout_rows::{decimal_field, put_end, put_word};

// The bytes that the printout of a table of so many buckets can take: a row of 41 bytes, and 20 rows of 137 for each bucket.
pub fn room_for(buckets: usize) -> usize
    requires { buckets ≤ 256 }
    ensures { result ≡ printout_room buckets }
{
    41 + buckets * 20 * 137
}

// How many entries and how many replacements a table holds.
#[derive(Clone, Copy, Debug, PartialEq, Eq)]
pub struct Totals {
    pub entries: usize,
    pub replacements: usize,
}

pub fn held_in(table: &[u8]) -> Totals
    requires { table_sound table.now ≡ true }
    ensures { result ≡ record { entries = entry_total (buckets_of table.now); replacements = replacement_total (buckets_of table.now) } }
{
    let count = table::bucket_count(table);
    let mut entries = 0;
    let mut replacements = 0;
    for slot in 0..count {
        let start = table::HEADER_SIZE + slot * Bucket::SIZE;
        entries += table[start] as usize;
        replacements += table[start + 1] as usize;
    }
    Totals {
        entries,
        replacements,
    }
}

// The row of the table.
pub fn put_head(out: &mut [u8], table: &[u8]) -> usize
    requires { (table_sound table.now ≡ true) × (length (table_row table.now) ≤ length out.old) }
    ensures next { result ≡ 0 + length (table_row table.now) }
    ensures bytes { out.new ≡ store out.old 0 (table_row table.now) }
{
    let count = table::bucket_count(table);
    let clock = table::clock(table);
    let total = held_in(table);
    let next = put_word(out, 0, b"table");
    let next = decimal_field(out, next, count as u64);
    let next = decimal_field(out, next, clock.0);
    let next = decimal_field(out, next, total.entries as u64);
    let next = decimal_field(out, next, total.replacements as u64);
    put_end(out, next)
}

// Each function that writes does so from index `at`, and returns the index after its text.

// The rows of the `n` entries whose bytes start at index `from` of the table.
fn put_entries(
    out: &mut [u8],
    at: usize,
    word: &[u8],
    distance: usize,
    table: &[u8],
    from: usize,
    n: usize,
) -> usize
    requires { EntriesIn table.now from n × (at + length (entry_rows word.now distance 1 (entries_at table.now from n)) ≤ length out.old) }
    ensures next { result ≡ at + length (entry_rows word.now distance 1 (entries_at table.now from n)) }
    ensures bytes { out.new ≡ store out.old at (entry_rows word.now distance 1 (entries_at table.now from n)) }
{
    let mut next = at;
    for i in 0..n {
        let e = entry::load_entry(table, from + i * Entry::SIZE);
        next = put_entry(out, next, word, distance, i + 1, e);
    }
    next
}

// The rows of the bucket in a slot, at this logarithmic distance.
fn put_bucket(out: &mut [u8], at: usize, distance: usize, table: &[u8], slot: usize) -> usize
    requires { BucketIn table.now slot × (at + length (bucket_rows distance (bucket_at table.now slot)) ≤ length out.old) }
    ensures next { result ≡ at + length (bucket_rows distance (bucket_at table.now slot)) }
    ensures bytes { out.new ≡ store out.old at (bucket_rows distance (bucket_at table.now slot)) }
{
    let start = table::HEADER_SIZE + slot * Bucket::SIZE;
    let entries = table[start] as usize;
    let replacements = table[start + 1] as usize;
    let next = put_entries(out, at, b"seat", distance, table, start + 2, entries);
    put_entries(
        out,
        next,
        b"wait",
        distance,
        table,
        start + Bucket::REPLACEMENTS_AT,
        replacements,
    )
}

// The rows of all buckets.
fn put_buckets(out: &mut [u8], at: usize, table: &[u8]) -> usize
    requires { (table_sound table.now ≡ true) × (at + length (buckets_rows (257 - count_of table.now) (buckets_of table.now)) ≤ length out.old) }
    ensures next { result ≡ at + length (buckets_rows (257 - count_of table.now) (buckets_of table.now)) }
    ensures bytes { out.new ≡ store out.old at (buckets_rows (257 - count_of table.now) (buckets_of table.now)) }
{
    let count = table::bucket_count(table);
    let first = 257 - count;
    let mut next = at;
    for slot in 0..count {
        next = put_bucket(out, next, first + slot, table, slot);
    }
    next
}

// Writes the printout of a sound table, and returns its length.
pub fn put_table(out: &mut [u8], table: &[u8]) -> usize
    requires { (table_sound table.now ≡ true) × (printout_room (count_of table.now) ≤ length out.old) }
    ensures value { result ≡ length (printout table.now) }
    ensures out_after { out.new ≡ store out.old 0 (printout table.now) }
{
    let next = put_head(out, table);
    put_buckets(out, next, table)
}

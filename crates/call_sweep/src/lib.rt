// The sweep call on a table in lent bytes, for any bytes.
#![tactic(auto)]

ghost use Rattle.std.specs.Prelude.{◌≡◌, true, map, ◌+◌, ◌*◌, ◌≤◌, length, get_or};
ghost use Rattle.numbers.specs.Numbers.{answer_number};
ghost use Rattle.call_history.specs.Model as model;
ghost use Rattle.call_model.specs.Calls.{answer_on, bytes_after};
ghost use Rattle.call_model.specs.IfAny.{sound_if_any};
ghost use Rattle.call_model.specs.Reading.{reading};
ghost use Rattle.octets.specs.Octets.{part, store};
ghost use Rattle.lists.specs.Lists.{all};
ghost use Rattle.entry.specs.Layout.{decode_entry};
ghost use Rattle.bucket_model.specs.Contents.{entries_at, encode_bucket, decode_bucket};
ghost use Rattle.bucket_model.specs.Rules.{on_sweep};
ghost use Rattle.bucket_model.specs.Sound.{sound};
ghost use Rattle.table_model.specs.Layout.{encode_table, own_of, clock_of, buckets_of};
ghost use Rattle.table_model.specs.Sound.{anywhere, table_sound};
ghost use Rattle.bucket_sweep.specs.Steps.{stays};
ghost use Rattle.call_sweep.specs.Steps.{nothing_goes, sweep_answer, sweep_table};

use bucket::Bucket;
use entry::Entry;
use node::MonotonicMillis;
use numbers::Refusal;

// Nodes that did not answer in time go, then replacements with an expired proof, and proved replacements take free entries.
pub fn sweep_on(table: &mut [u8], clock: MonotonicMillis) -> Result<(), Refusal>
    ensures value { answer_number result ≡ answer_on reading table.old (model.sweep clock.0) }
    ensures table_after { table.new ≡ bytes_after reading table.old (model.sweep clock.0) }
{
    sweep(table, clock)
}

// The same on no bytes or on a sound table, where nothing is left to test.
pub fn sweep_on_sound(table: &mut [u8], clock: MonotonicMillis) -> Result<(), Refusal>
    requires { sound_if_any table.old ≡ true }
    ensures value { answer_number result ≡ answer_on reading table.old (model.sweep clock.0) }
    ensures table_after { table.new ≡ bytes_after reading table.old (model.sweep clock.0) }
{
    sweep_sound(table, clock)
}

// Whether the entry whose bytes start at index `at` stays in the sweep's removals, a replacement where `waiting`.
fn entry_stays(bytes: &[u8], at: usize, waiting: bool, time: MonotonicMillis) -> bool
    requires { at + 143 ≤ length bytes.now }
    ensures { result ≡ stays waiting time.0 (decode_entry (part bytes.now at 143)) }
{
    let ping = entry::ping_of(entry::load_stamp(bytes, at + 102));
    let alive = !bucket_times::is_overdue(ping, time);
    if waiting {
        let proof = entry::proof_of(entry::load_stamp(bytes, at + 93));
        return bucket_entry::both(alive, !bucket_times::proof_expired(proof, time));
    }
    alive
}

// Whether all of the `n` entries whose bytes start at index `at` stay.
fn all_stay(bytes: &[u8], at: usize, n: usize, waiting: bool, time: MonotonicMillis) -> bool
    requires { (at + n * 143 ≤ length bytes.now) × (n ≤ 16) }
    ensures { result ≡ all (stays waiting time.0) (entries_at bytes.now at n) }
{
    let mut stay = true;
    for i in (0..n).rev() {
        let here = entry_stays(bytes, at + i * Entry::SIZE, waiting, time);
        stay = here && stay;
    }
    stay
}

// Whether a sweep removes nothing of the bucket whose bytes start at index `at`.
fn nothing_goes(bytes: &[u8], at: usize, time: MonotonicMillis) -> bool
    requires { (at + 2862 ≤ length bytes.now) × ((get_or bytes.now at 0 ≤ 16) × (get_or bytes.now (at + 1) 0 ≤ 4)) }
    ensures { result ≡ nothing_goes time.0 (decode_bucket (part bytes.now at 2862)) }
{
    let entries = bytes[at] as usize;
    let replacements = bytes[at + 1] as usize;
    bucket_entry::both(
        all_stay(bytes, at + 2, entries, false, time),
        all_stay(
            bytes,
            at + Bucket::REPLACEMENTS_AT,
            replacements,
            true,
            time,
        ),
    )
}

// Sweeps the bucket whose bytes start at index `at` and are sound at this time.
fn sweep_bucket(bytes: &mut [u8], at: usize, time: MonotonicMillis)
    requires { (at + 2862 ≤ length bytes.old) × (sound anywhere time.0 (part bytes.old at 2862) ≡ true) }
    ensures { bytes.new ≡ store bytes.old at (encode_bucket (on_sweep time.0 (decode_bucket (part bytes.old at 2862)))) }
{
    if nothing_goes(bytes, at, time) {
        return;
    }
    let b = Bucket::load(bytes, at);
    let swept = bucket_sweep::sweep(b, time);
    swept.store(bytes, at);
}

// Sweeps every bucket of a sound table.
fn sweep_buckets(bytes: &mut [u8], time: MonotonicMillis)
    requires { (table_sound bytes.old ≡ true) × (clock_of bytes.old ≤ time.0) }
    ensures { bytes.new ≡ encode_table (own_of bytes.old) (clock_of bytes.old) (map (on_sweep time.0) (buckets_of bytes.old)) }
{
    let count = table::bucket_count(bytes);
    for i in 0..count {
        sweep_bucket(bytes, table::HEADER_SIZE + i * Bucket::SIZE, time);
    }
}

// Sweeps the table: nodes that did not answer in time go, then replacements with an expired proof, and proved replacements take free
// entries. Refused with 1 or 2, nothing is written.
pub fn sweep(table: &mut [u8], time: MonotonicMillis) -> Result<(), Refusal>
    ensures value { answer_number result ≡ sweep_answer table.old time.0 }
    ensures table_after { table.new ≡ sweep_table table.old time.0 }
{
    if !table_sound::sound(table) {
        return Err(Refusal::Unsound);
    }
    sweep_sound(table, time)
}

// The same on no bytes or on a sound table.
fn sweep_sound(table: &mut [u8], time: MonotonicMillis) -> Result<(), Refusal>
    requires { sound_if_any table.old ≡ true }
    ensures value { answer_number result ≡ sweep_answer table.old time.0 }
    ensures table_after { table.new ≡ sweep_table table.old time.0 }
{
    if table.len() == 0 {
        return Err(Refusal::Unsound);
    }
    let clock = table::clock(table);
    if time.0 < clock.0 {
        return Err(Refusal::ClockBack);
    }
    sweep_buckets(table, time);
    table::set_clock(table, time);
    Ok(())
}

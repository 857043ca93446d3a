// Whether a table in lent bytes is sound: one bucket, or all.
#![tactic(auto)]

ghost use Rattle.std.specs.Prelude.{◌≡◌, true, ◌<◌};
ghost use Rattle.table_model.specs.Layout.{count_of, header_sound};
ghost use Rattle.table_model.specs.Sound.{bucket_sound, buckets_sound, table_sound};

use bucket::Bucket;

// Whether the bucket in a slot is sound, in a table with a sound header.
pub fn slot_sound(bytes: &[u8], slot: usize) -> bool
    requires { (header_sound bytes.now ≡ true) × (slot < count_of bytes.now) }
    ensures { result ≡ bucket_sound bytes.now slot }
{
    let own = table::own_hash(bytes);
    let clock = table::clock(bytes);
    let number = 256 - table::bucket_count(bytes) + slot;
    bucket_sound::sound(
        bytes,
        table::HEADER_SIZE + slot * Bucket::SIZE,
        &own,
        number,
        clock,
    )
}

// Whether all buckets are, in a table with a sound header.
fn buckets_sound(bytes: &[u8]) -> bool
    requires { header_sound bytes.now ≡ true }
    ensures { result ≡ buckets_sound bytes.now }
{
    let count = table::bucket_count(bytes);
    for slot in 0..count {
        if !slot_sound(bytes, slot) {
            return false;
        }
    }
    true
}

// Whether the whole table is sound.
pub fn sound(bytes: &[u8]) -> bool
    ensures { result ≡ table_sound bytes.now }
{
    table::header_sound(bytes) && buckets_sound(bytes)
}

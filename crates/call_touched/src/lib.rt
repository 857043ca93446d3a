// The bucket that a key touches, of a table in lent bytes: where a key leads, the answers to a key and an address, and the bucket taken out and
// put back.
#![tactic(auto)]

ghost use Rattle.std.specs.Prelude.{◌≡◌, true, ◌+◌, ◌≤◌, length};
ghost use Rattle.numbers.specs.Numbers.{answer_number};
ghost use Rattle.lists.specs.Lists.{first};
ghost use Rattle.table_model.specs.Layout.{count_of, offset_of, bucket_at, header_sound};
ghost use Rattle.call_model.specs.IfAny.{sound_if_any};
ghost use Rattle.bucket.specs.Steps.{contents, Shows, InBounds};
ghost use Rattle.bucket_lookup.specs.Steps.{Ready};
ghost use Rattle.call_touched.specs.Placed.{placed};
ghost use Rattle.call_touched.specs.Steps.{touched_sound, Below, reached, is_wrong_key, is_own_key, key_tests, kept_place, SoundAt, with_bucket};

use bucket::Bucket;
use node::MonotonicMillis;
use numbers::Refusal;
use table::Touched;

// Where a key leads.
#[derive(Clone, Copy)]
pub enum Reach {
    // Answer 1: the header, or the bucket that the key touches, is not sound.
    Unsound,
    At(Touched),
}

// Whether the bucket that a key touches, if any, is sound.
fn touched_sound(table: &[u8], touched: Touched) -> bool
    requires { (header_sound table.now ≡ true) × Below (count_of table.now) touched }
    ensures { result ≡ touched_sound table.now touched }
{
    match touched {
        Touched::WrongKey => true,
        Touched::Own => true,
        Touched::NotKept => true,
        Touched::Slot(slot) => table_sound::slot_sound(table, slot),
    }
}

pub fn reached_by(table: &[u8], key: &[u8]) -> Reach
    ensures { result ≡ reached table.now key.now }
{
    if !table::header_sound(table) {
        return Reach::Unsound;
    }
    let touched = table::touched_by(table, key);
    if touched_sound(table, touched) {
        return Reach::At(touched);
    }
    Reach::Unsound
}

// The same in no bytes or in a sound table, where nothing is left to test.
pub fn reached_in(table: &[u8], key: &[u8]) -> Reach
    requires { sound_if_any table.now ≡ true }
    ensures { result ≡ reached table.now key.now }
{
    if table.len() == 0 {
        return Reach::Unsound;
    }
    Reach::At(table::touched_by(table, key))
}

fn is_wrong_key(touched: Touched) -> bool
    ensures { result ≡ is_wrong_key touched }
{
    match touched {
        Touched::WrongKey => true,
        Touched::Own => false,
        Touched::NotKept => false,
        Touched::Slot(_) => false,
    }
}

fn is_own_key(touched: Touched) -> bool
    ensures { result ≡ is_own_key touched }
{
    match touched {
        Touched::WrongKey => false,
        Touched::Own => true,
        Touched::NotKept => false,
        Touched::Slot(_) => false,
    }
}

// Refuses with 5 to 7.
pub fn key_number(touched: Touched, address: &[u8]) -> Result<(), Refusal>
    ensures { answer_number result ≡ first (key_tests touched address.now) }
{
    if is_wrong_key(touched) {
        return Err(Refusal::WrongKey);
    }
    if !node::is_address_size(address.len()) {
        return Err(Refusal::WrongAddress);
    }
    if is_own_key(touched) {
        return Err(Refusal::OwnKey);
    }
    Ok(())
}

// The slot of the key's bucket, or refuses with 12.
pub fn kept_place(touched: Touched) -> Result<usize, Refusal>
    ensures { placed result ≡ kept_place touched }
{
    match touched {
        Touched::WrongKey | Touched::Own | Touched::NotKept => Err(Refusal::NotKept),
        Touched::Slot(slot) => Ok(slot),
    }
}

// The bucket in a slot, where it is sound.
pub fn bucket_in(table: &[u8], slot: usize) -> Bucket
    requires { SoundAt table.now slot }
    ensures { Shows result (bucket_at table.now slot) × Ready result }
{
    Bucket::load(table, table::HEADER_SIZE + slot * Bucket::SIZE)
}

// Writes a bucket into its slot, and the clock; no other byte changes.
pub fn put(table: &mut [u8], slot: usize, b: Bucket, clock: MonotonicMillis)
    requires { (offset_of (slot + 1) ≤ length table.old) × InBounds b }
    ensures { table.new ≡ with_bucket table.old slot (contents b) clock.0 }
{
    b.store(table, table::HEADER_SIZE + slot * Bucket::SIZE);
    table::set_clock(table, clock);
}

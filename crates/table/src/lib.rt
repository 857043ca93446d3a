// The table in lent bytes: a fresh one, its header, and the bucket that a key touches.
#![tactic(auto)]

ghost use Rattle.std.specs.Prelude.{◌≡◌, true, ◌+◌, ◌-◌, ◌*◌, ◌≤◌, leb, length};
ghost use Rattle.numbers.specs.Numbers.{answer_number};
ghost use Rattle.octets.specs.Octets.{store, big_endian};
ghost use Rattle.table_model.specs.Layout.{own_of, clock_of, count_of, header_sound, encode_header};
ghost use Rattle.table.specs.Steps.{pick, touched_by};
ghost use Rattle.table.specs.Init.{init_answer, init_table, fresh_table};

use bucket::Bucket;
use node::MonotonicMillis;
use numbers::Refusal;

pub const HEADER_SIZE: usize = 512;

// Writes the byte form of a table of `count` empty buckets.
fn write_fresh(table: &mut [u8], key: &[u8], count: usize)
    requires { (1 ≤ count) × ((count ≤ 256) × (length table.old ≡ 512 + count * 2862)) }
    ensures { table.new ≡ fresh_table key.now count }
{
    let hash = keccak::keccak256(key);
    octets::put_bytes(table, 0, &hash);
    octets::put_zeros(table, 32, 480 + count * Bucket::SIZE);
    octets::put_number(table, 40, 2, count as u64);
}

// Makes a fresh table of `count` buckets, clock 0, nothing held. Refused with 1 or 5, nothing is written.
pub fn init(table: &mut [u8], key: &[u8], count: usize) -> Result<(), Refusal>
    ensures value { answer_number result ≡ init_answer table.old key.now count }
    ensures table_after { table.new ≡ init_table table.old key.now count }
{
    if count < 1 {
        return Err(Refusal::Unsound);
    }
    if 256 < count {
        return Err(Refusal::Unsound);
    }
    if table.len() != HEADER_SIZE + count * Bucket::SIZE {
        return Err(Refusal::Unsound);
    }
    if key.len() != 64 {
        return Err(Refusal::WrongKey);
    }
    write_fresh(table, key, count);
    Ok(())
}

// The own hash, as the header has it.
pub fn own_hash(bytes: &[u8]) -> [u8; 32]
    requires { 512 ≤ length bytes.now }
    ensures { result ≡ own_of bytes.now }
{
    let mut own = [0u8; 32];
    octets::get_bytes(&mut own, bytes, 0);
    own
}

// The clock of the last accepted call.
pub fn clock(bytes: &[u8]) -> MonotonicMillis
    requires { 512 ≤ length bytes.now }
    ensures { result.0 ≡ clock_of bytes.now }
{
    MonotonicMillis(octets::number_at(bytes, 32, 8))
}

pub fn set_clock(bytes: &mut [u8], time: MonotonicMillis)
    requires { 512 ≤ length bytes.old }
    ensures { bytes.new ≡ store bytes.old 32 (big_endian 8 time.0) }
{
    octets::put_number(bytes, 32, 8, time.0);
}

pub fn bucket_count(bytes: &[u8]) -> usize
    requires { 512 ≤ length bytes.now }
    ensures { result ≡ count_of bytes.now }
{
    octets::number_at(bytes, 40, 2) as usize
}

// Whether the bytes are as many as the header says, and the header is sound.
pub fn header_sound(bytes: &[u8]) -> bool
    ensures { result ≡ header_sound bytes.now }
{
    let size = bytes.len();
    if size < HEADER_SIZE {
        return false;
    }
    let count = bucket_count(bytes);
    if count < 1 {
        return false;
    }
    if 256 < count {
        return false;
    }
    if size != HEADER_SIZE + count * Bucket::SIZE {
        return false;
    }
    let zeros = [0u8; 470];
    octets::same_bytes(&bytes[42..HEADER_SIZE], &zeros)
}

// The bucket that a key touches, or why it touches none.
#[derive(Clone, Copy)]
pub enum Touched {
    // The key isn't 64 bytes.
    WrongKey,
    // The key's hash is the own one.
    Own,
    // The key's bucket isn't kept.
    NotKept,
    // The key's bucket stands in this slot.
    Slot(usize),
}

// The slot of the bucket of keys whose distance has so many binary digits, in a table of `count` buckets.
fn slot_of(bits: usize, count: usize) -> Touched
    requires { count ≤ 256 }
    ensures { result ≡ pick (leb (257 - count) bits) (Touched.Slot (bits - (257 - count))) Touched.NotKept }
{
    let least = 257 - count;
    if bits < least {
        return Touched::NotKept;
    }
    Touched::Slot(bits - least)
}

// The bucket that a key touches, in a table with a sound header.
pub fn touched_by(bytes: &[u8], key: &[u8]) -> Touched
    requires { header_sound bytes.now ≡ true }
    ensures { result ≡ touched_by bytes.now key.now }
{
    if key.len() != 64 {
        return Touched::WrongKey;
    }
    let hash = keccak::keccak256(key);
    let own = own_hash(bytes);
    if octets::same_bytes(&hash, &own) {
        return Touched::Own;
    }
    slot_of(distance::bit_length(&own, &hash), bucket_count(bytes))
}

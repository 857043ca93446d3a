// What a lent table tells of a key: the head of its bucket, and whether its node is held and where. Only the bucket that the key touches is
// tested.
#![tactic(auto)]

ghost use Rattle.std.specs.Prelude.{◌≡◌, ◌+◌, ◌-◌};
ghost use Rattle.table_model.specs.Layout.{count_of, bucket_at};
ghost use Rattle.call_touched.specs.Placed.{placed};
ghost use Rattle.call_touched.specs.Steps.{SoundAt};
ghost use Rattle.call_key.specs.Head.{no_head, head_entry, first_of, head_on};
ghost use Rattle.call_key.specs.Held.{not_found, found_in, found_on};
ghost use Rattle.call_key.specs.Steps.{place_of, key_place, SoundPlace, FewBefore, held_at};

use bucket::{Bucket, Position};
use call_touched::Reach;
use entry::{Entry, PingState};
use node::Node;
use numbers::Refusal;
use table::Touched;

// ---- where a key leads

// The slot of the key's bucket, or refuses with 5, 7 or 12.
fn place_of(touched: Touched) -> Result<usize, Refusal>
    ensures { placed result ≡ place_of touched }
{
    match touched {
        Touched::WrongKey => Err(Refusal::WrongKey),
        Touched::Own => Err(Refusal::OwnKey),
        Touched::NotKept => Err(Refusal::NotKept),
        Touched::Slot(slot) => Ok(slot),
    }
}

// The slot of the key's bucket, which is sound, or refuses with 1, 5, 7 or 12.
fn key_place(table: &[u8], key: &[u8]) -> Result<usize, Refusal>
    ensures { (placed result ≡ key_place table.now key.now) × SoundPlace table.now (placed result) }
{
    let reached = call_touched::reached_by(table, key);
    match reached {
        Reach::Unsound => Err(Refusal::Unsound),
        Reach::At(touched) => place_of(touched),
    }
}

// ---- the head of its bucket

// The answer number, the first entry of a bucket as a node record, zeros where there is none, and its ping state.
#[derive(Clone, Copy)]
pub struct HeadNode {
    pub number: u8,
    pub node: Node,
    pub ping: PingState,
}

fn no_head(number: u8) -> HeadNode
    ensures { result ≡ no_head number }
{
    let node = node::no_node();
    let ping = PingState::Quiet;
    HeadNode { number, node, ping }
}

fn head_entry(e: Entry) -> HeadNode
    ensures { result ≡ head_entry e }
{
    let ping = e.ping;
    let node = entry::node_of(e);
    HeadNode {
        number: numbers::DONE,
        node,
        ping,
    }
}

// The first entry of the bucket in a slot.
fn first_in(table: &[u8], slot: usize) -> HeadNode
    requires { SoundAt table.now slot }
    ensures { result ≡ first_of (bucket_at table.now slot).entries }
{
    let at = table::HEADER_SIZE + slot * Bucket::SIZE;
    if table[at] == 0 {
        return no_head(numbers::DONE);
    }
    head_entry(entry::load_entry(table, at + 2))
}

// The head of the key's bucket. The answer number: 0, or 1, 5, 7 or 12.
pub fn head(table: &[u8], key: &[u8]) -> HeadNode
    ensures { result ≡ head_on table.now key.now }
{
    match key_place(table, key) {
        Ok(slot) => first_in(table, slot),
        Err(refusal) => no_head(refusal.number()),
    }
}

// ---- whether its node is held

// Where a node is held, with the logarithmic distance of its bucket and its place there, counted from 1.
// kept: a match has three arms either way, and an Option nests two of them.
#[derive(Clone, Copy)]
pub enum Held {
    Nowhere,
    // A seat.
    Entry { distance: usize, place: usize },
    // A place in the waiting line.
    Replacement { distance: usize, place: usize },
}

// The answer number, where a node is held, and its node record, zeros where it isn't held.
#[derive(Clone, Copy)]
pub struct Found {
    pub number: u8,
    pub held: Held,
    pub node: Node,
}

fn not_found(number: u8) -> Found
    ensures { result ≡ not_found number }
{
    let node = node::no_node();
    let held = Held::Nowhere;
    Found { number, held, node }
}

fn held_at(distance: usize, position: Position) -> Held
    requires { FewBefore position }
    ensures { result ≡ held_at distance position }
{
    match position {
        Position::Absent => Held::Nowhere,
        Position::InEntries(i) => Held::Entry {
            distance,
            place: i + 1,
        },
        Position::InReplacements(i) => Held::Replacement {
            distance,
            place: i + 1,
        },
    }
}

// The key's node in the bucket in a slot.
fn found_in(table: &[u8], slot: usize, key: &[u8]) -> Found
    requires { SoundAt table.now slot }
    ensures { result ≡ found_in (257 - count_of table.now + slot) key.now (bucket_at table.now slot) }
{
    let distance = 257 - table::bucket_count(table) + slot;
    let lookup = bucket_lookup::look_up(call_touched::bucket_in(table, slot), key);
    if !lookup.is_held() {
        return not_found(numbers::DONE);
    }
    let position = lookup.position;
    let e = lookup.entry;
    let held = held_at(distance, position);
    let node = entry::node_of(e);
    Found {
        number: numbers::DONE,
        held,
        node,
    }
}

// Whether the key's node is held, and where. The answer number: 0, or 1, 5, 7 or 12.
pub fn find(table: &[u8], key: &[u8]) -> Found
    ensures { result ≡ found_on table.now key.now }
{
    match key_place(table, key) {
        Ok(slot) => found_in(table, slot, key),
        Err(refusal) => not_found(refusal.number()),
    }
}

// What a closest call chooses of a table in lent bytes, for any bytes.
#![tactic(auto)]

ghost use Rattle.std.specs.Prelude.{◌≡◌, []};
ghost use Rattle.closest_nearest.specs.Nearest.{holding};
ghost use Rattle.closest_choice.specs.Choice.{chosen, node_in};

use bucket::Bucket;
use closest_nearest::Nearest;
use entry::Entry;
use node::Node;

// The entries nearest to a target, nearest first, and how many distances were worked out for them; or the answer number and none of them.
#[derive(Clone, Copy)]
pub struct Choice {
    pub number: u8,
    pub nearest: Nearest,
    pub distances: usize,
}

fn none_chosen(number: u8) -> Choice
    ensures { result ≡ record { number = number; nearest = holding []; distances = 0 } }
{
    let nearest = Nearest::none();
    Choice {
        number,
        nearest,
        distances: 0,
    }
}

// The entries nearest to a target, for a list of `room` node records.
pub fn closest_on(table: &[u8], target: &[u8], room: usize) -> Choice
    ensures { result ≡ chosen table.now target.now room }
{
    let hash = keccak::keccak256(target);
    let chosen = closest_table::closest(table, hash);
    if !chosen.sound {
        return none_chosen(1);
    }
    if target.len() != 64 {
        return none_chosen(5);
    }
    if room < 16 {
        return none_chosen(19);
    }
    let nearest = chosen.nearest;
    Choice {
        number: 0,
        nearest,
        distances: chosen.distances,
    }
}

// The node of the entry with this index, counted from the head, in the bucket in this slot; a node of zeros where there is none.
pub fn node_in(table: &[u8], slot: usize, index: usize) -> Node
    ensures { result ≡ node_in table.now slot index }
{
    if 256 <= slot {
        return node::no_node();
    }
    let at = table::HEADER_SIZE + slot * Bucket::SIZE;
    if table.len() < at + Bucket::SIZE {
        return node::no_node();
    }
    let count = table[at] as usize;
    if Bucket::ENTRIES < count {
        return node::no_node();
    }
    if count <= index {
        return node::no_node();
    }
    entry::node_of(entry::load_entry(table, at + 2 + index * Entry::SIZE))
}

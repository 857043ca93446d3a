// What C is told of a table and of a key: numbers in fixed places, and a node record. Where the answer number isn't 0, what is lent stays as it
// was.
#![tactic(auto)]

ghost use Rattle.std.specs.Prelude.{◌≡◌};
ghost use Rattle.capi_table.specs.Told.{told_state, told_size, ping_numbers, node_of_head, told_head, held_numbers, node_of_found, told_found};

use call_key::{Found, HeadNode, Held};
use entry::PingState;
use node::Node;
use printout_table::{Printed, TableState};

// ---- a table

// The answer number of a table's state. Writes the clock, how many buckets there are, and how many entries and replacements they hold.
pub fn tell_state(told: &mut [u64; 4], state: TableState) -> u8
    ensures { (result ≡ state.number) × (told.new ≡ told_state state told.old) }
{
    if state.number != 0 {
        return state.number;
    }
    let clock = state.clock;
    *told = [
        clock.0,
        state.buckets as u64,
        state.entries as u64,
        state.replacements as u64,
    ];
    numbers::DONE
}

// The answer number of a printout. Writes its size.
pub fn tell_printed(size: &mut [u64; 1], printed: Printed) -> u8
    ensures { (result ≡ printed.number) × (size.new ≡ told_size printed size.old) }
{
    if printed.number != 0 {
        return printed.number;
    }
    *size = [printed.size as u64];
    numbers::DONE
}

// ---- the head of a key's bucket

// 1 and since which millisecond a ping is out, or zeros.
fn ping_numbers(ping: PingState) -> [u64; 2]
    ensures { result ≡ ping_numbers ping }
{
    match ping {
        PingState::Quiet => [0, 0],
        PingState::Out(t) => [1, t.0],
    }
}

// The lent record after the head was told.
pub fn node_of_head(old: Node, head: HeadNode) -> Node
    ensures { result ≡ node_of_head head old }
{
    if head.number != 0 {
        return old;
    }
    head.node
}

// The answer number of a head. Writes its ping state.
pub fn tell_head(told: &mut [u64; 2], head: HeadNode) -> u8
    ensures { (result ≡ head.number) × (told.new ≡ told_head head told.old) }
{
    if head.number != 0 {
        return head.number;
    }
    let ping = head.ping;
    *told = ping_numbers(ping);
    numbers::DONE
}

// ---- where a key's node is held

// 1 for a seat, 2 for a place in the waiting line, the distance and the place; or zeros.
fn held_numbers(held: Held) -> [u64; 3]
    ensures { result ≡ held_numbers held }
{
    match held {
        Held::Nowhere => [0, 0, 0],
        Held::Entry { distance, place } => [1, distance as u64, place as u64],
        Held::Replacement { distance, place } => [2, distance as u64, place as u64],
    }
}

// The lent record after it was told where a node is held.
pub fn node_of_found(old: Node, found: Found) -> Node
    ensures { result ≡ node_of_found found old }
{
    if found.number != 0 {
        return old;
    }
    found.node
}

// The answer number of a search for a key. Writes where its node is held.
pub fn tell_found(told: &mut [u64; 3], found: Found) -> u8
    ensures { (result ≡ found.number) × (told.new ≡ told_found found told.old) }
{
    if found.number != 0 {
        return found.number;
    }
    let held = found.held;
    *told = held_numbers(held);
    numbers::DONE
}

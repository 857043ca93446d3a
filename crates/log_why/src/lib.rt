// Why a node is or isn't in the table at a log's end. The log is followed line by line as a replay follows it, and of the node is carried where it
// stands and what its trail says.
#![tactic(auto)]

ghost use Rattle.std.specs.Prelude.{◌≡◌, true, false, cond, ◌+◌, ◌^◌, ◌≤◌, ◌<◌, length};
ghost use Rattle.octets.specs.Octets.{Bytes};
ghost use Rattle.table_model.specs.Layout.{header_sound};
ghost use Rattle.call_history.specs.Model as model;
ghost use Rattle.call_model.specs.Calls.{env_of};
ghost use Rattle.call_model.specs.Reading.{reading};
ghost use Rattle.log_lines.specs.Lines.{whole, too_long};
ghost use Rattle.log_state.specs.State.{state_of};
ghost use Rattle.log_replay.specs.Replay.{Reached};
ghost use Rattle.log_history.specs.Past.{Past};
ghost use Rattle.log_history.specs.Why as history;
ghost use Rattle.log_history.specs.Trail.{reason_of};
ghost use Rattle.log_run.specs.Run.{SameLines};
ghost use Rattle.log_reason.specs.Row.{why_of};
ghost use Rattle.log_acts.specs.Acts.{idle};
ghost use Rattle.log_why.specs.Steps.{seats_by, joins_by, removes_by, standing_by, trail_by};
ghost use Rattle.log_why.specs.Tracking.{Stands, Starts, Ready, NotedLine};

use bucket::Position;
use bucket_lookup::Lookup;
use entry::Entry;
use log_acts::Acted;
use log_history::{Reason, Standing, Trail};
use log_state::{MEMORY, Replay};

// ---- where the node stands

fn nowhere() -> Lookup
    ensures { result.position ≡ Position.Absent }
{
    let position = Position::Absent;
    let entry = Entry::empty();
    Lookup { position, entry }
}

// The slot of a key's bucket, or of the first one where its own isn't kept.
fn slot_of(table: &[u8], key: &[u8]) -> usize
    requires { header_sound table.now ≡ true }
    ensures { result ≡ model.slot (env_of reading table.now) key.now }
{
    let hash = keccak::keccak256(key);
    let own = table::own_hash(table);
    let least = 257 - table::bucket_count(table);
    let bits = distance::bit_length(&own, &hash);
    bits.saturating_sub(least)
}

// Where the node stands in the table that a replay has led to: it is sound, so nothing of it is tested.
fn look(memory: &[u8], key: &[u8], replay: Replay) -> Lookup
    requires { (46304 ≤ length memory.now) × ((replay.count ≤ 16) × Reached (state_of replay memory.now)) }
    ensures { (p : Past) → SameLines (state_of replay memory.now) p → Stands key.now p.stage result }
{
    if replay.count == 0 {
        return nowhere();
    }
    let size = replay.size();
    let table = &memory[0..size];
    let slot = slot_of(table, key);
    bucket_lookup::look_up(call_touched::bucket_in(table, slot), key)
}

// Where it stands after a line, where it stood at `place` before.
fn place_after(memory: &[u8], key: &[u8], replay: Replay, place: Lookup, looks: bool) -> Lookup
    requires { (46304 ≤ length memory.now) × ((replay.count ≤ 16) × Reached (state_of replay memory.now)) }
    ensures there { looks ≡ true → (p : Past) → SameLines (state_of replay memory.now) p → Stands key.now p.stage result }
    ensures same { looks ≡ false → result ≡ place }
{
    if looks {
        look(memory, key, replay)
    } else {
        place
    }
}

// ---- its trail

fn seats(before: Lookup, after: Lookup) -> bool
    ensures { result ≡ seats_by before after }
{
    !before.has_entry() && after.has_entry()
}

fn joins(before: Lookup, after: Lookup) -> bool
    ensures { result ≡ joins_by before after }
{
    !before.is_held() && after.is_held() && !after.has_entry()
}

fn removes(before: Lookup, after: Lookup) -> bool
    ensures { result ≡ removes_by before after }
{
    before.is_held() && !after.is_held()
}

// kept: an `if` in place of each call takes five lines.
fn pick(test: bool, a: u64, b: u64) -> u64
    ensures { result ≡ cond test a b }
{
    if test { a } else { b }
}

fn standing_after(trail: Trail, acted: Acted, before: Lookup, after: Lookup) -> Standing
    requires { trail.lines < 2 ^ 63 }
    ensures { result ≡ standing_by trail acted before after }
{
    let n = trail.lines + 1;
    if seats(before, after) {
        return Standing::SeatedAt(n);
    }
    if joins(before, after) {
        return Standing::WaitingSince(n);
    }
    if !removes(before, after) {
        return trail.standing;
    }
    if acted.overdue {
        return Standing::PingLost(n, trail.pinged);
    }
    Standing::ProofLost(n)
}

// One line more.
fn trail_after(trail: Trail, acted: Acted, before: Lookup, after: Lookup) -> Trail
    requires { trail.lines < 2 ^ 63 }
    ensures { result ≡ trail_by trail acted before after }
{
    let n = trail.lines + 1;
    let standing = standing_after(trail, acted, before, after);
    let tails = log_acts::either(seats(before, after), acted.moves);
    let number = if acted.named {
        acted.number
    } else {
        trail.number
    };
    Trail {
        lines: n,
        standing,
        tail: pick(tails, n, trail.tail),
        pinged: pick(acted.pings, n, trail.pinged),
        named: log_acts::either(acted.named, trail.named),
        number,
    }
}

// The reason that a trail tells.
pub fn reason_of(trail: Trail) -> Reason
    ensures { result ≡ reason_of trail }
{
    match trail.standing {
        Standing::NotYet => {
            if trail.named {
                Reason::Never(trail.number)
            } else {
                Reason::Unnamed
            }
        }
        Standing::SeatedAt(n) => Reason::Seated(n, trail.tail),
        Standing::WaitingSince(n) => Reason::Waiting(n),
        Standing::PingLost(n, m) => Reason::Ping(n, m),
        Standing::ProofLost(n) => Reason::Proof(n),
    }
}

// ---- one line after the other

// The replay, where the node stands in its table, and its trail.
#[derive(Clone, Copy)]
pub struct Tracked {
    pub replay: Replay,
    pub place: Lookup,
    pub trail: Trail,
}

// Before the first line.
pub fn start() -> Tracked
    ensures { Starts result }
{
    let replay = Replay::new();
    let place = nowhere();
    let trail = Trail {
        lines: 0,
        standing: Standing::NotYet,
        tail: 0,
        pinged: 0,
        named: false,
        number: 0,
    };
    Tracked {
        replay,
        place,
        trail,
    }
}

// Takes one line, without its 0A. The table is the first bytes of the memory, as in a replay.
pub fn note_line(memory: &mut [u8], key: &[u8], at: Tracked, line: &[u8]) -> Tracked
    requires { Ready at memory.old }
    ensures { NotedLine key.now at (whole line.now) memory.old result memory.new }
{
    let place = at.place;
    let trail = at.trail;
    let before = at.replay;
    let taken = log_acts::act(memory, key, before, place, line);
    let replay = taken.replay;
    let acted = taken.acted;
    let after = place_after(memory, key, replay, place, acted.looks);
    let trail = trail_after(trail, acted, place, after);
    Tracked {
        replay,
        place: after,
        trail,
    }
}

// Takes a line over the limit.
pub fn note_too_long(at: Tracked) -> Tracked
    requires { (at.replay.count ≤ 16) × (at.trail.lines < 2 ^ 63) }
    ensures { (key memory : Bytes) → NotedLine key at too_long memory result memory }
{
    let replay = at.replay;
    let place = at.place;
    let trail = at.trail;
    let trail = trail_after(trail, log_acts::idle(numbers::UNREADABLE), place, place);
    Tracked {
        replay,
        place,
        trail,
    }
}

// ---- a whole log

// Zeros for the table.
fn table_memory() -> [u8; MEMORY]
    ensures { 46304 ≡ length result }
{
    [0; MEMORY]
}

// The reason for a key over a whole log.
fn reason_over(log: &[u8], key: &[u8]) -> Reason
    ensures { result ≡ history.why key.now log.now }
{
    let mut memory = table_memory();
    let mut tracked = start();
    let mut at = 0;
    while at < log.len() {
        let end = text::find(log, at, b'\n');
        tracked = note_line(&mut memory, key, tracked, &log[at..end]);
        at = end + 1;
    }
    reason_of(tracked.trail)
}

// Why the node with the key that `digits` spells is or isn't in the table at the end of `log`, if they spell one.
pub fn tell_why(log: &[u8], digits: &[u8]) -> Option<Reason>
    ensures { result ≡ why_of log.now digits.now }
{
    if !log_reason::is_key_text(digits) {
        return None;
    }
    let key = log_reason::key_of(digits);
    Some(reason_over(log, &key))
}

// A node of a bucket by value, looked up by its key, with the tests of 13 to 18.
#![tactic(auto)]

ghost use Rattle.std.specs.Prelude.{◌≡◌, not, ◌&&◌, ◌||◌, ◌≤◌, ◌<◌, leb};
ghost use Rattle.lists.specs.Lists.{any, empty};
ghost use Rattle.bucket_model.specs.Rules.{range_full, is_out, is_overdue, is_at, is_verified, is_awaited};
ghost use Rattle.bucket.specs.Steps.{listed, contents, InBounds};
ghost use Rattle.bucket_lookup.specs.Steps.{Ready, found, in_entries, LooksUp, Within, EntryAt};

use bucket::{Bucket, EntryList, Position};
use entry::Entry;
use node::MonotonicMillis;

// Where a node is held, with its entry there.
#[derive(Clone, Copy)]
pub struct Lookup {
    pub position: Position,
    pub entry: Entry,
}

fn entry_at(b: Bucket, at: Position) -> Entry
    requires { InBounds b × Within at (contents b) }
    ensures { EntryAt at (contents b) result }
{
    match at {
        Position::Absent => Entry::empty(),
        Position::InEntries(i) => {
            let l = b.entries;
            l.items[i]
        }
        Position::InReplacements(i) => {
            let l = b.replacements;
            l.items[i]
        }
    }
}

// The node with this key.
pub fn look_up(b: Bucket, key: &[u8]) -> Lookup
    requires { Ready b }
    ensures { LooksUp key.now (contents b) result }
{
    let position = b.find(key);
    let entry = entry_at(b, position);
    Lookup { position, entry }
}

impl Lookup {
    pub fn is_held(self) -> bool
        ensures { result ≡ not (empty (found self)) }
    {
        let position = self.position;
        match position {
            Position::Absent => false,
            Position::InEntries(_) => true,
            Position::InReplacements(_) => true,
        }
    }

    // 13
    pub fn not_verified(self, address: &[u8], udp: u16, clock: MonotonicMillis) -> bool
        ensures { result ≡ not (any (is_verified clock.0 address.now udp) (found self)) }
    {
        let e = self.entry;
        let held = self.is_held();
        !bucket_entry::both(held, bucket_entry::is_verified(e, address, udp, clock))
    }

    // 14
    pub fn not_awaited(self, hash: &[u8], address: &[u8], udp: u16) -> bool
        ensures { result ≡ not (any (is_awaited hash.now address.now udp) (found self)) }
    {
        let e = self.entry;
        let held = self.is_held();
        !bucket_entry::both(held, bucket_entry::is_awaited(e, hash, address, udp))
    }

    // 15
    pub fn is_late(self, clock: MonotonicMillis) -> bool
        ensures { result ≡ any (λ e. is_overdue clock.0 e.ping) (found self) }
    {
        let e = self.entry;
        let ping = e.ping;
        let held = self.is_held();
        bucket_entry::both(held, bucket_times::is_overdue(ping, clock))
    }

    // 16
    pub fn held_elsewhere(self, address: &[u8], udp: u16) -> bool
        ensures { result ≡ any (λ e. not (is_at address.now udp e)) (found self) }
    {
        let e = self.entry;
        let held = self.is_held();
        bucket_entry::both(held, !bucket_entry::is_at(e, address, udp))
    }

    // 17
    pub fn ping_out(self) -> bool
        ensures { result ≡ any (λ e. is_out e.ping) (found self) }
    {
        let e = self.entry;
        let ping = e.ping;
        let held = self.is_held();
        bucket_entry::both(held, bucket_times::is_out(ping))
    }

    // 18, with the number of replacements
    pub fn no_room(self, replacements: usize) -> bool
        ensures { result ≡ (empty (found self) && leb 4 replacements) }
    {
        let held = self.is_held();
        bucket_entry::both(!held, Bucket::REPLACEMENTS <= replacements)
    }

    // Whether the node's range has all the entries that it may have.
    pub fn range_full(self, entries: EntryList) -> bool
        requires { entries.len ≤ 16 }
        ensures { result ≡ any (λ e. range_full (listed entries) e.endpoint) (found self) }
    {
        let e = self.entry;
        let at = e.endpoint;
        let held = self.is_held();
        bucket_entry::both(held, bucket_range::range_full(entries, at))
    }

    // Whether the node is an entry already.
    pub fn has_entry(self) -> bool
        ensures { result ≡ in_entries self.position }
    {
        let position = self.position;
        match position {
            Position::Absent => false,
            Position::InEntries(_) => true,
            Position::InReplacements(_) => false,
        }
    }

    // Whether a ping is due to the sender of a ping.
    pub fn ping_due(self, address: &[u8], udp: u16, clock: MonotonicMillis) -> bool
        ensures { result ≡ (empty (found self) || any (λ e. is_at address.now udp e && (not (is_verified clock.0 address.now udp e) && not (is_out e.ping))) (found self)) }
    {
        let e = self.entry;
        let ping = e.ping;
        let held = self.is_held();
        if !held {
            return true;
        }
        let verified = bucket_entry::is_verified(e, address, udp, clock);
        let open = bucket_entry::both(!verified, !bucket_times::is_out(ping));
        bucket_entry::both(bucket_entry::is_at(e, address, udp), open)
    }
}

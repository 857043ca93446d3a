// The sweep of one bucket by value: who stays, and who takes an entry.
#![tactic(auto)]

ghost use Rattle.std.specs.Prelude.{◌≡◌, not, [], ◌≤◌, ◌<◌};
ghost use Rattle.lists.specs.Lists.{select};
ghost use Rattle.bucket_model.specs.Rules.{on_sweep, is_promoted};
ghost use Rattle.bucket.specs.Steps.{listed, Holds, contents, Shows, InBounds};
ghost use Rattle.bucket_sweep.specs.Steps.{stays, promote_all};

use bucket::{Bucket, EntryList};
use entry::Entry;
use node::MonotonicMillis;

// Whether an entry stays in the sweep's removals, a replacement where `waiting`.
fn stays(e: Entry, waiting: bool, clock: MonotonicMillis) -> bool
    ensures { result ≡ stays waiting clock.0 e }
{
    if waiting && bucket_times::proof_expired(e.proof, clock) {
        return false;
    }
    !bucket_times::is_overdue(e.ping, clock)
}

// The entries of a list that stay in the sweep's removals, in order.
fn kept(l: EntryList, waiting: bool, clock: MonotonicMillis) -> EntryList
    requires { l.len ≤ 16 }
    ensures { Holds result (select (stays waiting clock.0) (listed l)) }
{
    let mut kept = l;
    let mut n = 0;
    for i in 0..l.len {
        let e = l.items[i];
        kept.items[n] = e;
        n += usize::from(stays(e, waiting, clock));
    }
    kept.len = n;
    kept
}

// Whether a replacement is proved and may take an entry beside these.
fn is_promoted(l: EntryList, e: Entry) -> bool
    requires { l.len ≤ 16 }
    ensures { result ≡ is_promoted (listed l) e }
{
    bucket_times::is_proved(e.proof) && bucket_range::may_take(l, e.endpoint)
}

// Of the line, each in its turn, those that are promoted take an entry at the tail, and the others stay. The lists are changed in place: a
// list by value for each turn is a copy.
fn promote_all(taken: EntryList, line: EntryList) -> Bucket
    requires { (taken.len ≤ 16) × (line.len ≤ 16) }
    ensures { Shows result (promote_all (record { entries = listed taken; replacements = [] }) (listed line)) }
{
    let mut entries = taken;
    let mut replacements = line;
    replacements.len = 0;
    for i in 0..line.len {
        let e = line.items[i];
        if is_promoted(entries, e) {
            let tail = entries.len;
            entries.items[tail] = e;
            entries.len = tail + 1;
        } else {
            let end = replacements.len;
            replacements.items[end] = e;
            replacements.len = end + 1;
        }
    }
    Bucket {
        entries,
        replacements,
    }
}

// Sweep: nodes that did not answer in time go, then replacements with an expired proof; then proved replacements take
// free entries at the tail in line order, those whose range is full passed over.
pub fn sweep(b: Bucket, clock: MonotonicMillis) -> Bucket
    requires { InBounds b }
    ensures { Shows result (on_sweep clock.0 (contents b)) }
{
    let entries = kept(b.entries, false, clock);
    let line = kept(b.replacements, true, clock);
    promote_all(entries, line)
}

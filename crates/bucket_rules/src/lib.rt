// The rules of one bucket by value: ping sent, pong, other packets.
#![tactic(auto)]

ghost use Rattle.std.specs.Prelude.{◌≡◌, ◌≤◌, ◌<◌, get_or, length};
ghost use Rattle.bucket_model.specs.Rules.{on_ping_sent, on_pong, on_heard};
ghost use Rattle.bucket.specs.Steps.{contents, Shows, InBounds};
ghost use Rattle.bucket_lookup.specs.Steps.{Ready, LooksUp, Within};
ghost use Rattle.bucket_rules.specs.Steps.{put_at, tail_at, promote_at, join_line};
ghost use Rattle.entry.specs.Layout.{no_entry};

use bucket::{Bucket, Position};
use bucket_lookup::Lookup;
use entry::Entry;
use node::MonotonicMillis;

// The entry at the head.
pub fn head(b: Bucket) -> Entry
    requires { (0 < b.entries.len) × (b.entries.len ≤ 16) }
    ensures { result ≡ get_or (contents b).entries 0 no_entry }
{
    let l = b.entries;
    l.items[0]
}

fn put_at(b: Bucket, at: Position, e: Entry) -> Bucket
    requires { InBounds b × Within at (contents b) }
    ensures { Shows result (put_at at e (contents b)) }
{
    let entries = b.entries;
    let replacements = b.replacements;
    match at {
        Position::Absent => b,
        Position::InEntries(i) => {
            let entries = entries.replace(i, e);
            Bucket {
                entries,
                replacements,
            }
        }
        Position::InReplacements(i) => {
            let replacements = replacements.replace(i, e);
            Bucket {
                entries,
                replacements,
            }
        }
    }
}

fn to_tail(b: Bucket, i: usize, e: Entry) -> Bucket
    requires { InBounds b × (i < b.entries.len) }
    ensures { Shows result (tail_at (Position.InEntries i) e (contents b)) }
{
    let entries = b.entries;
    let replacements = b.replacements;
    let entries = entries.to_tail(i, e);
    Bucket {
        entries,
        replacements,
    }
}

fn tail_at(b: Bucket, at: Position, e: Entry) -> Bucket
    requires { InBounds b × Within at (contents b) }
    ensures { Shows result (tail_at at e (contents b)) }
{
    match at {
        Position::Absent => b,
        Position::InEntries(i) => to_tail(b, i, e),
        Position::InReplacements(_) => put_at(b, at, e),
    }
}

fn promote(b: Bucket, i: usize, e: Entry) -> Bucket
    requires { InBounds b × (i < b.replacements.len) }
    ensures { Shows result (promote_at (Position.InReplacements i) e (contents b)) }
{
    let entries = b.entries;
    let replacements = b.replacements;
    let at = e.endpoint;
    if bucket_range::may_take(entries, at) {
        let seated = entries.push(e);
        let replacements = replacements.remove(i);
        return Bucket {
            entries: seated,
            replacements,
        };
    }
    let replacements = replacements.replace(i, e);
    Bucket {
        entries,
        replacements,
    }
}

fn promote_at(b: Bucket, at: Position, e: Entry) -> Bucket
    requires { InBounds b × Within at (contents b) }
    ensures { Shows result (promote_at at e (contents b)) }
{
    match at {
        Position::Absent => b,
        Position::InEntries(i) => to_tail(b, i, e),
        Position::InReplacements(i) => promote(b, i, e),
    }
}

fn join_line(b: Bucket, e: Entry) -> Bucket
    requires { InBounds b }
    ensures { Shows result (join_line e (contents b)) }
{
    let entries = b.entries;
    let replacements = b.replacements;
    let replacements = replacements.push(e);
    Bucket {
        entries,
        replacements,
    }
}

// ---- the rules, with the node that was looked up by its key

// Ping sent: a held node gets its ping state and hash; a new one joins the end of the replacements.
pub fn ping_sent(
    b: Bucket,
    l: Lookup,
    key: &[u8],
    address: &[u8],
    udp: u16,
    tcp: u16,
    hash: &[u8],
    clock: MonotonicMillis,
) -> Bucket
    requires { (Ready b × LooksUp key.now (contents b) l) × ((length key.now ≡ 64) × ((length address.now ≤ 16) × (length hash.now ≡ 32))) }
    ensures { Shows result (on_ping_sent clock.0 key.now address.now udp tcp hash.now (contents b)) }
{
    let held = l.is_held();
    if held {
        let e = l.entry;
        let at = l.position;
        return put_at(b, at, bucket_entry::pinged(e, hash, clock));
    }
    join_line(
        b,
        bucket_entry::new_entry(key, address, udp, tcp, hash, clock),
    )
}

// Pong: an entry goes to the tail; a replacement that may takes an entry there, else stays in line.
pub fn pong(b: Bucket, l: Lookup, key: &[u8], clock: MonotonicMillis) -> Bucket
    requires { Ready b × LooksUp key.now (contents b) l }
    ensures { Shows result (on_pong clock.0 key.now (contents b)) }
{
    let e = l.entry;
    let at = l.position;
    promote_at(b, at, bucket_entry::ponged(e, clock))
}

// Another packet of a verified node: an entry goes to the tail, a replacement keeps its place in line.
pub fn heard(b: Bucket, l: Lookup, key: &[u8], clock: MonotonicMillis) -> Bucket
    requires { Ready b × LooksUp key.now (contents b) l }
    ensures { Shows result (on_heard clock.0 key.now (contents b)) }
{
    let e = l.entry;
    let at = l.position;
    tail_at(b, at, bucket_entry::heard(e, clock))
}

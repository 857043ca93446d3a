// The answer to a datagram, of its sender's bucket by value.
#![tactic(auto)]

ghost use Rattle.std.specs.Prelude.{◌≡◌};
ghost use Rattle.octets.specs.Octets.{Bytes};
ghost use Rattle.bucket_model.specs.Contents.{Contents};
ghost use Rattle.entry.specs.Nodes.{node_of};
ghost use Rattle.bucket.specs.Steps.{contents, InBounds};
ghost use Rattle.bucket_lookup.specs.Steps.{LooksUp};
ghost use Rattle.call_answer.specs.Answer as spec;

use bucket::Bucket;
use bucket_lookup::Lookup;
use entry::{Entry, PingState};
use node::{MonotonicMillis, Node};
use packet::{EnrRequest, EnrResponse, FindNode, Neighbors, Ping, Pong};

// What became of the sender of an accepted pong.
#[derive(Clone, Copy)]
pub enum Standing {
    // It was an entry, and is now at the tail.
    Tail,
    // It was a replacement, and now has an entry at the tail.
    TookEntry,
    // It stays a replacement, proved, since its range has all the entries that it may have.
    RangeFull,
    // It stays a replacement, proved; this is the ping state of the head.
    Waiting(PingState),
}

// The answer to a datagram.
#[derive(Clone, Copy)]
pub enum Outcome {
    // The answer number, from 1 to 15.
    Refused(u8),
    // A pong is due; and a ping too, if so.
    Ping(Ping, bool),
    Pong(Pong, Standing),
    FindNode(FindNode),
    Neighbors(Neighbors),
    EnrRequest(EnrRequest),
    EnrResponse(EnrResponse),
}

// `head` is the node at the head of the bucket where the sender of a pong waits for a free entry, else a node of zeros.
#[derive(Clone, Copy)]
pub struct Received {
    pub outcome: Outcome,
    pub head: Node,
}

// The answer number.
pub fn number(received: Received) -> u8
    ensures { result ≡ spec.number_of received }
{
    let outcome = received.outcome;
    match outcome {
        Outcome::Refused(n) => n,
        Outcome::Ping(_, _) => 0,
        Outcome::Pong(_, _) => 0,
        Outcome::FindNode(_) => 0,
        Outcome::Neighbors(_) => 0,
        Outcome::EnrRequest(_) => 0,
        Outcome::EnrResponse(_) => 0,
    }
}

// An answer that names no node.
pub fn plain(outcome: Outcome) -> Received
    ensures { result ≡ spec.plain outcome }
{
    let head = node::no_node();
    Received { outcome, head }
}

// The answer to an accepted ping of the node that was looked up.
pub fn accepted_ping(
    l: Lookup,
    p: Ping,
    clock: MonotonicMillis,
    address: &[u8],
    port: u16,
) -> Received
    ensures { (key : Bytes) (m : Contents) → LooksUp key m l → result ≡ spec.accepted_ping clock.0 address.now port key p m }
{
    plain(Outcome::Ping(p, l.ping_due(address, port, clock)))
}

// The answer to the pong of a replacement that finds no free entry.
fn waiting(p: Pong, e: Entry) -> Received
    ensures { result ≡ record { outcome = Outcome.Pong p (Standing.Waiting e.ping); head = node_of e } }
{
    let ping = e.ping;
    let head = entry::node_of(e);
    let outcome = Outcome::Pong(p, Standing::Waiting(ping));
    Received { outcome, head }
}

// The answer to an accepted pong of the node that was looked up.
pub fn accepted_pong(b: Bucket, l: Lookup, p: Pong) -> Received
    requires { InBounds b }
    ensures { (key : Bytes) → LooksUp key (contents b) l → result ≡ spec.accepted_pong key p (contents b) }
{
    if l.has_entry() {
        return plain(Outcome::Pong(p, Standing::Tail));
    }
    let entries = b.entries;
    if l.range_full(entries) {
        return plain(Outcome::Pong(p, Standing::RangeFull));
    }
    if b.free_entry() {
        return plain(Outcome::Pong(p, Standing::TookEntry));
    }
    waiting(p, bucket_rules::head(b))
}

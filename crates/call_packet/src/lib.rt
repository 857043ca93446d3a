// A packet that reaches its sender's bucket, by value: 13 to 15, or the answer and the bucket after it.
#![tactic(auto)]

ghost use Rattle.std.specs.Prelude.{◌≡◌, [], ◌∷◌};
ghost use Rattle.numbers.specs.Numbers.{answer_number};
ghost use Rattle.lists.specs.Lists.{first};
ghost use Rattle.call_packet.specs.Steps.{Replies, RepliesTo};
ghost use Rattle.octets.specs.Octets.{Bytes};
ghost use Rattle.bucket_model.specs.Contents.{Contents};
ghost use Rattle.bucket_model.specs.Rules.{not_verified, not_awaited, is_late, on_pong};
ghost use Rattle.bucket.specs.Steps.{contents};
ghost use Rattle.bucket_lookup.specs.Steps.{Ready, LooksUp};
ghost use Rattle.call_history.specs.Model as model;
ghost use Rattle.packet_span.specs.Parts.{bytes_of};
ghost use Rattle.call_answer.specs.Answer.{plain, refusal, accepted_ping, accepted_pong};

use bucket::Bucket;
use bucket_lookup::Lookup;
use call_answer::{Outcome, Received};
use node::MonotonicMillis;
use numbers::Refusal;
use packet::{Packet, Ping, Pong};

// What a packet comes to at its sender's bucket.
#[derive(Clone, Copy)]
pub struct Reply {
    // From 13 to 15, or 0.
    pub number: u8,
    // The bucket after a packet with the number 0.
    pub after: Bucket,
    pub answer: Received,
}

// The reply to a packet that changes nothing.
fn refused(number: u8, b: Bucket) -> Reply
    ensures { result ≡ record { number = number; after = b; answer = refusal number } }
{
    let answer = call_answer::plain(Outcome::Refused(number));
    Reply {
        number,
        after: b,
        answer,
    }
}

// Refuses with 14 and 15: the pong must be awaited and in time.
fn pong_number(
    l: Lookup,
    hash: &[u8],
    clock: MonotonicMillis,
    address: &[u8],
    port: u16,
) -> Result<(), Refusal>
    ensures { (key : Bytes) (m : Contents) → LooksUp key m l → answer_number result ≡ first ((not_awaited hash.now address.now port key m, 14) ∷ (is_late clock.0 key m, 15) ∷ []) }
{
    if l.not_awaited(hash, address, port) {
        return Err(Refusal::NotAwaited);
    }
    if l.is_late(clock) {
        return Err(Refusal::Late);
    }
    Ok(())
}

// A ping: a verified sender is heard.
fn on_ping(
    b: Bucket,
    l: Lookup,
    p: Ping,
    clock: MonotonicMillis,
    address: &[u8],
    port: u16,
    signer: &[u8],
) -> Reply
    requires { Ready b × LooksUp signer.now (contents b) l }
    ensures { Replies [] (model.on_packet clock.0 address.now port signer.now (contents b)) (accepted_ping clock.0 address.now port signer.now p (contents b)) result }
{
    let answer = call_answer::accepted_ping(l, p, clock, address, port);
    if l.not_verified(address, port, clock) {
        return Reply {
            number: numbers::DONE,
            after: b,
            answer,
        };
    }
    let after = bucket_rules::heard(b, l, signer, clock);
    Reply {
        number: numbers::DONE,
        after,
        answer,
    }
}

// A pong: it must be awaited and in time.
fn on_pong(
    b: Bucket,
    l: Lookup,
    p: Pong,
    datagram: &[u8],
    clock: MonotonicMillis,
    address: &[u8],
    port: u16,
    signer: &[u8],
) -> Reply
    requires { Ready b × LooksUp signer.now (contents b) l }
    ensures { Replies ((not_awaited (bytes_of datagram.now p.ping_hash) address.now port signer.now (contents b), 14) ∷ (is_late clock.0 signer.now (contents b), 15) ∷ []) (on_pong clock.0 signer.now (contents b)) (accepted_pong signer.now p (contents b)) result }
{
    let hash = p.ping_hash;
    let hash = packet_span::bytes_of(datagram, hash);
    match pong_number(l, hash, clock, address, port) {
        Ok(()) => {
            let after = bucket_rules::pong(b, l, signer, clock);
            let answer = call_answer::accepted_pong(b, l, p);
            Reply {
                number: numbers::DONE,
                after,
                answer,
            }
        }
        Err(refusal) => refused(refusal.number(), b),
    }
}

// A packet of type 3 to 6, answered with `outcome`: its sender must be verified, and is heard.
fn on_other(
    b: Bucket,
    l: Lookup,
    outcome: Outcome,
    clock: MonotonicMillis,
    address: &[u8],
    port: u16,
    signer: &[u8],
) -> Reply
    requires { Ready b × LooksUp signer.now (contents b) l }
    ensures { Replies ((not_verified clock.0 address.now port signer.now (contents b), 13) ∷ []) (model.on_packet clock.0 address.now port signer.now (contents b)) (plain outcome) result }
{
    if l.not_verified(address, port, clock) {
        return refused(numbers::NOT_VERIFIED, b);
    }
    let after = bucket_rules::heard(b, l, signer, clock);
    let answer = call_answer::plain(outcome);
    Reply {
        number: numbers::DONE,
        after,
        answer,
    }
}

// The reply to a packet of the node that was looked up.
pub fn on_packet(
    b: Bucket,
    l: Lookup,
    packet: Packet,
    datagram: &[u8],
    clock: MonotonicMillis,
    address: &[u8],
    port: u16,
    signer: &[u8],
) -> Reply
    requires { Ready b × LooksUp signer.now (contents b) l }
    ensures { (e : model.Env) → RepliesTo e clock.0 address.now port signer.now datagram.now packet (contents b) result }
{
    match packet {
        Packet::Ping(p) => on_ping(b, l, p, clock, address, port, signer),
        Packet::Pong(p) => on_pong(b, l, p, datagram, clock, address, port, signer),
        Packet::FindNode(p) => {
            on_other(b, l, Outcome::FindNode(p), clock, address, port, signer)
        }
        Packet::Neighbors(p) => {
            on_other(b, l, Outcome::Neighbors(p), clock, address, port, signer)
        }
        Packet::EnrRequest(p) => {
            on_other(b, l, Outcome::EnrRequest(p), clock, address, port, signer)
        }
        Packet::EnrResponse(p) => {
            on_other(b, l, Outcome::EnrResponse(p), clock, address, port, signer)
        }
    }
}

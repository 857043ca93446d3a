// What the rules of a bucket ask of one entry, and what they make of it.
#![tactic(auto)]

ghost use Rattle.std.specs.Prelude.{◌≡◌, ◌≤◌, ◌&&◌, length, take};
ghost use Rattle.bucket_model.specs.Rules.{is_at, is_verified, is_awaited, pinged, ponged, heard, endpoint_of, new_entry};
ghost use Rattle.octets.specs.Octets.{same_bytes};
ghost use Rattle.node.specs.Nodes.{address_of};

use bucket_times::{is_out, proof_holds};
use entry::{EndpointProof, Entry, PingState};
use node::{Endpoint, MonotonicMillis};

// Both hold: a compound test with one way out.
pub fn both(a: bool, b: bool) -> bool
    ensures { result ≡ (a && b) }
{
    a && b
}

fn same_address(e: Endpoint, address: &[u8]) -> bool
    ensures { result ≡ same_bytes address.now (address_of e) }
{
    let len = e.len as usize;
    if len < 16 {
        return octets::same_bytes(address, &e.address[..len]);
    }
    octets::same_bytes(address, &e.address)
}

// Held at this address and UDP port.
pub fn is_at(e: Entry, address: &[u8], udp: u16) -> bool
    ensures { result ≡ is_at address.now udp e }
{
    same_address(e.endpoint, address) && udp == e.endpoint.udp
}

// Document 01's verified.
pub fn is_verified(e: Entry, address: &[u8], udp: u16, clock: MonotonicMillis) -> bool
    ensures { result ≡ is_verified clock.0 address.now udp e }
{
    is_at(e, address, udp) && proof_holds(e.proof, clock)
}

// Document 01's awaited, of a pong with this ping hash.
pub fn is_awaited(e: Entry, hash: &[u8], address: &[u8], udp: u16) -> bool
    ensures { result ≡ is_awaited hash.now address.now udp e }
{
    is_out(e.ping) && octets::same_bytes(hash, &e.hash) && is_at(e, address, udp)
}

// A ping with this hash went out now.
pub fn pinged(e: Entry, hash: &[u8], clock: MonotonicMillis) -> Entry
    requires { length hash.now ≡ 32 }
    ensures { result ≡ pinged clock.0 hash.now e }
{
    let mut sent = [0u8; 32];
    octets::get_bytes(&mut sent, hash, 0);
    Entry {
        ping: PingState::Out(clock),
        hash: sent,
        ..e
    }
}

// Its pong came now. The hash of the ping that it answers stays.
pub fn ponged(e: Entry, clock: MonotonicMillis) -> Entry
    ensures { result ≡ ponged clock.0 e }
{
    Entry {
        seen: clock,
        proof: EndpointProof::At(clock),
        ping: PingState::Quiet,
        ..e
    }
}

// Another packet of it came now.
pub fn heard(e: Entry, clock: MonotonicMillis) -> Entry
    ensures { result ≡ heard clock.0 e }
{
    Entry { seen: clock, ..e }
}

pub fn endpoint_of(address: &[u8], udp: u16, tcp: u16) -> Endpoint
    requires { length address.now ≤ 16 }
    ensures { result ≡ endpoint_of address.now udp tcp }
{
    let mut held = [0u8; 16];
    octets::put_bytes(&mut held, 0, address);
    Endpoint {
        len: address.len() as u8,
        address: held,
        udp,
        tcp,
    }
}

// A node that a first ping went out to now.
pub fn new_entry(
    key: &[u8],
    address: &[u8],
    udp: u16,
    tcp: u16,
    hash: &[u8],
    clock: MonotonicMillis,
) -> Entry
    requires { (length key.now ≡ 64) × ((length address.now ≤ 16) × (length hash.now ≡ 32)) }
    ensures { result ≡ new_entry clock.0 key.now address.now udp tcp hash.now }
{
    let mut held = [0u8; 64];
    octets::get_bytes(&mut held, key, 0);
    let mut sent = [0u8; 32];
    octets::get_bytes(&mut sent, hash, 0);
    let endpoint = endpoint_of(address, udp, tcp);
    Entry {
        key: held,
        endpoint,
        seen: MonotonicMillis(0),
        proof: EndpointProof::Unproved,
        ping: PingState::Out(clock),
        hash: sent,
    }
}

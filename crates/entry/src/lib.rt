// A table entry by value, with its byte form of 143 bytes:
// key 64, address length 1, address 16, UDP port 2, TCP port 2, last seen 8, proof 9, ping 9, ping hash 32.
#![tactic(auto)]

ghost use Rattle.std.specs.Prelude.{◌≡◌, ◌+◌, ◌≤◌, length};
ghost use Rattle.octets.specs.Octets.{part, store, number};
ghost use Rattle.entry.specs.Nodes.{node_of};
ghost use Rattle.entry.specs.Layout.{encode_entry, decode_entry, encode_endpoint, decode_endpoint, encode_stamp, decode_stamp, proof_stamp, ping_stamp, proof_of, ping_of};

use node::{Endpoint, MonotonicMillis, Node};

// Document 01's ping state, quiet or out since a stated millisecond.
// kept: as an Option it has the type of a proof, and the one can be given for the other.
#[derive(Clone, Copy)]
pub enum PingState {
    Quiet,
    Out(MonotonicMillis),
}

// Document 01's proof: when the node last proved its endpoint.
// kept: as an Option it has the type of a ping state, and the one can be given for the other.
#[derive(Clone, Copy)]
pub enum EndpointProof {
    Unproved,
    At(MonotonicMillis),
}

// A time that may be missing, as the byte form has it: flag 0 and time 0, or flag 1 and the time.
#[derive(Clone, Copy)]
pub struct Stamp {
    pub flag: u8,
    pub time: u64,
}

// Document 01's place: what the table holds of one node. `hash` is the hash of the last ping sent to it.
#[derive(Clone, Copy)]
pub struct Entry {
    pub key: [u8; 64],
    pub endpoint: Endpoint,
    pub seen: MonotonicMillis,
    pub proof: EndpointProof,
    pub ping: PingState,
    pub hash: [u8; 32],
}

impl Entry {
    pub const SIZE: usize = 143;

    // An entry with nothing in it, to fill an array with.
    pub fn empty() -> Entry {
        let endpoint = Endpoint {
            len: 0,
            address: [0; 16],
            udp: 0,
            tcp: 0,
        };
        Entry {
            key: [0; 64],
            endpoint,
            seen: MonotonicMillis(0),
            proof: EndpointProof::Unproved,
            ping: PingState::Quiet,
            hash: [0; 32],
        }
    }
}

// An entry's node record.
pub fn node_of(e: Entry) -> Node
    ensures { result ≡ node_of e }
{
    let key = e.key;
    let endpoint = e.endpoint;
    Node { key, endpoint }
}

fn port_at(bytes: &[u8], at: usize) -> u16
    requires { at + 2 ≤ length bytes.now }
    ensures { result ≡ number (part bytes.now at 2) }
{
    octets::number_at(bytes, at, 2) as u16
}

fn load_endpoint(bytes: &[u8], at: usize) -> Endpoint
    requires { at + 21 ≤ length bytes.now }
    ensures { result ≡ decode_endpoint (part bytes.now at 21) }
{
    let len = bytes[at];
    let mut address = [0u8; 16];
    octets::get_bytes(&mut address, bytes, at + 1);
    let udp = port_at(bytes, at + 17);
    let tcp = port_at(bytes, at + 19);
    Endpoint {
        len,
        address,
        udp,
        tcp,
    }
}

pub fn load_stamp(bytes: &[u8], at: usize) -> Stamp
    requires { at + 9 ≤ length bytes.now }
    ensures { result ≡ decode_stamp (part bytes.now at 9) }
{
    let flag = bytes[at];
    let time = octets::number_at(bytes, at + 1, 8);
    Stamp { flag, time }
}

pub fn proof_of(s: Stamp) -> EndpointProof
    ensures { result ≡ proof_of s }
{
    if s.flag == 0 {
        return EndpointProof::Unproved;
    }
    EndpointProof::At(MonotonicMillis(s.time))
}

pub fn ping_of(s: Stamp) -> PingState
    ensures { result ≡ ping_of s }
{
    if s.flag == 0 {
        return PingState::Quiet;
    }
    PingState::Out(MonotonicMillis(s.time))
}

// The entry whose bytes start at index `at`.
pub fn load_entry(bytes: &[u8], at: usize) -> Entry
    requires { at + 143 ≤ length bytes.now }
    ensures { result ≡ decode_entry (part bytes.now at 143) }
{
    let mut key = [0u8; 64];
    octets::get_bytes(&mut key, bytes, at);
    let endpoint = load_endpoint(bytes, at + 64);
    let seen = MonotonicMillis(octets::number_at(bytes, at + 85, 8));
    let proof = load_stamp(bytes, at + 93);
    let proof = proof_of(proof);
    let ping = load_stamp(bytes, at + 102);
    let ping = ping_of(ping);
    let mut hash = [0u8; 32];
    octets::get_bytes(&mut hash, bytes, at + 111);
    Entry {
        key,
        endpoint,
        seen,
        proof,
        ping,
        hash,
    }
}

fn store_endpoint(bytes: &mut [u8], at: usize, e: Endpoint)
    requires { at + 21 ≤ length bytes.old }
    ensures { bytes.new ≡ store bytes.old at (encode_endpoint e) }
{
    let address = e.address;
    octets::put_byte(bytes, at, e.len);
    octets::put_bytes(bytes, at + 1, &address);
    octets::put_number(bytes, at + 17, 2, e.udp as u64);
    octets::put_number(bytes, at + 19, 2, e.tcp as u64);
}

fn proof_stamp(proof: EndpointProof) -> Stamp
    ensures { result ≡ proof_stamp proof }
{
    match proof {
        EndpointProof::Unproved => Stamp { flag: 0, time: 0 },
        EndpointProof::At(t) => Stamp { flag: 1, time: t.0 },
    }
}

fn ping_stamp(ping: PingState) -> Stamp
    ensures { result ≡ ping_stamp ping }
{
    match ping {
        PingState::Quiet => Stamp { flag: 0, time: 0 },
        PingState::Out(t) => Stamp { flag: 1, time: t.0 },
    }
}

fn store_stamp(bytes: &mut [u8], at: usize, s: Stamp)
    requires { at + 9 ≤ length bytes.old }
    ensures { bytes.new ≡ store bytes.old at (encode_stamp s) }
{
    octets::put_byte(bytes, at, s.flag);
    octets::put_number(bytes, at + 1, 8, s.time);
}

// Writes the byte form of `p` from index `at`; no other byte changes.
pub fn store_entry(bytes: &mut [u8], at: usize, p: Entry)
    requires { at + 143 ≤ length bytes.old }
    ensures bytes_after { bytes.new ≡ store bytes.old at (encode_entry p) }
    ensures p_len { length (encode_entry p) ≡ 143 }
{
    let key = p.key;
    let endpoint = p.endpoint;
    let seen = p.seen;
    let proof = p.proof;
    let proof = proof_stamp(proof);
    let ping = p.ping;
    let ping = ping_stamp(ping);
    let hash = p.hash;
    octets::put_bytes(bytes, at, &key);
    store_endpoint(bytes, at + 64, endpoint);
    octets::put_number(bytes, at + 85, 8, seen.0);
    store_stamp(bytes, at + 93, proof);
    store_stamp(bytes, at + 102, ping);
    octets::put_bytes(bytes, at + 111, &hash);
}

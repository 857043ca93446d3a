// The row of one entry of a printout. Each function writes its text from index `at`, and returns the index after it.
#![tactic(auto)]

ghost use Rattle.std.specs.Prelude.{◌≡◌, ◌∷◌, ◌+◌, ◌≤◌, length};
ghost use Rattle.octets.specs.Octets.{store};
ghost use Rattle.printout_entry.specs.EntryRow.{proof_text, entry_row, HasAddress};
ghost use Rattle.printout_entry.specs.Parts.{place_text, endpoint_text, times_text};

use entry::{EndpointProof, Entry, PingState};
use node::{Endpoint, MonotonicMillis};
use printout_rows::{
    decimal_field, hex_field, key_field, ping_field, put_end, put_word, word_field,
};

// A field that is a proof.
fn proof_field(out: &mut [u8], at: usize, proof: EndpointProof) -> usize
    requires { at + length (0x09 ∷ proof_text proof) ≤ length out.old }
    ensures next { result ≡ at + length (0x09 ∷ proof_text proof) }
    ensures bytes { out.new ≡ store out.old at (0x09 ∷ proof_text proof) }
{
    match proof {
        EndpointProof::Unproved => word_field(out, at, b"-"),
        EndpointProof::At(t) => decimal_field(out, at, t.0),
    }
}

// The address and the ports.
fn put_endpoint(out: &mut [u8], at: usize, endpoint: Endpoint) -> usize
    requires { (endpoint.len ≤ 16) × (at + length (endpoint_text endpoint) ≤ length out.old) }
    ensures next { result ≡ at + length (endpoint_text endpoint) }
    ensures bytes { out.new ≡ store out.old at (endpoint_text endpoint) }
{
    let next = hex_field(out, at, &endpoint.address[..endpoint.len as usize]);
    let next = decimal_field(out, next, endpoint.udp as u64);
    decimal_field(out, next, endpoint.tcp as u64)
}

// The word, the distance and the place.
fn put_place(out: &mut [u8], at: usize, word: &[u8], distance: usize, place: usize) -> usize
    requires { at + length (place_text word.now distance place) ≤ length out.old }
    ensures next { result ≡ at + length (place_text word.now distance place) }
    ensures bytes { out.new ≡ store out.old at (place_text word.now distance place) }
{
    let next = put_word(out, at, word);
    let next = decimal_field(out, next, distance as u64);
    decimal_field(out, next, place as u64)
}

// Last seen, proof and ping, and the end of the row.
fn put_times(
    out: &mut [u8],
    at: usize,
    seen: MonotonicMillis,
    proof: EndpointProof,
    ping: PingState,
) -> usize
    requires { at + length (times_text seen proof ping) ≤ length out.old }
    ensures next { result ≡ at + length (times_text seen proof ping) }
    ensures bytes { out.new ≡ store out.old at (times_text seen proof ping) }
{
    let next = decimal_field(out, at, seen.0);
    let next = proof_field(out, next, proof);
    let next = ping_field(out, next, ping);
    put_end(out, next)
}

// The row of an entry.
pub fn put_entry(
    out: &mut [u8],
    at: usize,
    word: &[u8],
    distance: usize,
    place: usize,
    e: Entry,
) -> usize
    requires { HasAddress e × (at + length (entry_row word.now distance place e) ≤ length out.old) }
    ensures next { result ≡ at + length (entry_row word.now distance place e) }
    ensures bytes { out.new ≡ store out.old at (entry_row word.now distance place e) }
{
    let next = put_place(out, at, word, distance, place);
    let next = key_field(out, next, e.key);
    let next = put_endpoint(out, next, e.endpoint);
    put_times(out, next, e.seen, e.proof, e.ping)
}

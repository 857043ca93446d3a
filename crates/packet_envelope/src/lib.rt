// A datagram's length, hash and signature.
#![tactic(auto)]

ghost use Rattle.std.specs.Prelude.{◌≡◌};
ghost use Rattle.packet_envelope.specs.Envelope.{is_sized, hash_of, signature_of, hash_matches};

use packet_span::Span;

// Answer 3 if not: 98 to 1,280 bytes.
pub fn is_sized(datagram: &[u8]) -> bool
    ensures { result ≡ is_sized datagram.now }
{
    (98..=1280).contains(&datagram.len())
}

// The packet's hash; nothing of a datagram that is too short.
pub fn hash_part(datagram: &[u8]) -> &[u8]
    ensures { result.now ≡ hash_of datagram.now }
{
    packet_span::bytes_of(datagram, Span { start: 0, len: 32 })
}

// The packet's signature; nothing of a datagram that is too short.
pub fn signature_part(datagram: &[u8]) -> &[u8]
    ensures { result.now ≡ signature_of datagram.now }
{
    packet_span::bytes_of(datagram, Span { start: 32, len: 65 })
}

// Answer 4 if not: the hash is Keccak-256 of what follows it.
pub fn hash_matches(datagram: &[u8]) -> bool
    ensures { result ≡ hash_matches datagram.now }
{
    if datagram.len() < 32 {
        return false;
    }
    let hash = keccak::keccak256(&datagram[32..]);
    hash_part(datagram) == hash.as_slice()
}

// The join of a signature and a body into a datagram.
#![tactic(auto)]

ghost use Rattle.std.specs.Prelude.{◌≡◌};
ghost use Rattle.written.specs.Written.{written, written_in};
ghost use Rattle.packet_join.specs.Join.{can_join, datagram};

use octets::put_bytes;
use written::WriteError;

fn can_join(signature: &[u8], body: &[u8]) -> bool
    ensures { result ≡ can_join signature.now body.now }
{
    signature.len() == 65 && 1 <= body.len() && body.len() <= 1183
}

// Writes the datagram of a signature and a body: their hash, the signature, the body. It looks only at lengths.
pub fn join(buf: &mut [u8], signature: &[u8], body: &[u8]) -> Result<usize, WriteError>
    ensures answer { result ≡ written (can_join signature.now body.now) (datagram signature.now body.now) buf.old }
    ensures bytes { buf.new ≡ written_in (can_join signature.now body.now) (datagram signature.now body.now) buf.old }
{
    if !can_join(signature, body) {
        return Err(WriteError::Unwritable);
    }
    let end = 97 + body.len();
    if buf.len() < end {
        return Err(WriteError::Short);
    }
    put_bytes(buf, 32, signature);
    put_bytes(buf, 97, body);
    let hash = keccak::keccak256(&buf[32..end]);
    put_bytes(buf, 0, &hash);
    Ok(end)
}

// The writer of Pong into lent room.
#![tactic(auto)]

ghost use Rattle.std.specs.Prelude.{◌≡◌};
ghost use Rattle.packet_bodies.specs.Writers.{can_pong, pong_body};
ghost use Rattle.written.specs.Written.{written, written_in};

use node::is_address_size;
use packet_bodies::{TO_TCP, body_size, put_start};
use written::WriteError;

fn can_pong(to: &[u8], ping_hash: &[u8]) -> bool
    ensures { result ≡ can_pong to.now ping_hash.now }
{
    is_address_size(to.len()) && ping_hash.len() == 32
}

// Writes the body of a Pong: `to` with TCP port 0.
pub fn write_pong(
    buf: &mut [u8],
    to: &[u8],
    to_udp: u16,
    ping_hash: &[u8],
    expiration: u64,
    enr_seq: Option<u64>,
) -> Result<usize, WriteError>
    ensures answer { result ≡ written (can_pong to.now ping_hash.now) (pong_body to.now to_udp ping_hash.now expiration enr_seq) buf.old }
    ensures bytes { buf.new ≡ written_in (can_pong to.now ping_hash.now) (pong_body to.now to_udp ping_hash.now expiration enr_seq) buf.old }
{
    if !can_pong(to, ping_hash) {
        return Err(WriteError::Unwritable);
    }
    let a = packet_bodies::endpoint_size(to, to_udp, TO_TCP);
    let size = a + 33 + packet_bodies::last_size(expiration, enr_seq);
    if buf.len() < body_size(size) {
        return Err(WriteError::Short);
    }
    let at = put_start(buf, 2, size);
    let at = packet_bodies::put_endpoint(buf, at, to, to_udp, TO_TCP);
    let at = rlp_write::write_string(buf, at, ping_hash);
    Ok(packet_bodies::put_last(buf, at, expiration, enr_seq))
}

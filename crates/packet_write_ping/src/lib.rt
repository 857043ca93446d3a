// The writer of Ping into lent room.
#![tactic(auto)]

ghost use Rattle.std.specs.Prelude.{◌≡◌};
ghost use Rattle.packet_bodies.specs.Writers.{can_ping, ping_body};
ghost use Rattle.written.specs.Written.{written, written_in};

use node::is_address_size;
use packet_bodies::{TO_TCP, body_size, put_start};
use packet_model::is_sender_size;
use written::WriteError;

// The version of a Ping that is written.
const VERSION: u64 = 4;

fn can_ping(from: &[u8], to: &[u8]) -> bool
    ensures { result ≡ can_ping from.now to.now }
{
    is_sender_size(from.len()) && is_address_size(to.len())
}

// Writes the body of a Ping: version 4, `to` with TCP port 0. An empty `from` says that the address is unknown.
pub fn write_ping(
    buf: &mut [u8],
    from: &[u8],
    from_udp: u16,
    from_tcp: u16,
    to: &[u8],
    to_udp: u16,
    expiration: u64,
    enr_seq: Option<u64>,
) -> Result<usize, WriteError>
    ensures answer { result ≡ written (can_ping from.now to.now) (ping_body from.now from_udp from_tcp to.now to_udp expiration enr_seq) buf.old }
    ensures bytes { buf.new ≡ written_in (can_ping from.now to.now) (ping_body from.now from_udp from_tcp to.now to_udp expiration enr_seq) buf.old }
{
    if !can_ping(from, to) {
        return Err(WriteError::Unwritable);
    }
    let a = packet_bodies::endpoint_size(from, from_udp, from_tcp);
    let b = packet_bodies::endpoint_size(to, to_udp, TO_TCP);
    let size = 1 + a + b + packet_bodies::last_size(expiration, enr_seq);
    if buf.len() < body_size(size) {
        return Err(WriteError::Short);
    }
    let at = put_start(buf, 1, size);
    let at = rlp_write::write_uint(buf, at, VERSION);
    let at = packet_bodies::put_endpoint(buf, at, from, from_udp, from_tcp);
    let at = packet_bodies::put_endpoint(buf, at, to, to_udp, TO_TCP);
    Ok(packet_bodies::put_last(buf, at, expiration, enr_seq))
}

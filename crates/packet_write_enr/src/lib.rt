// Writers of ENRRequest and ENRResponse into lent room.
#![tactic(auto)]

ghost use Rattle.std.specs.Prelude.{◌≡◌, true};
ghost use Rattle.packet_bodies.specs.Writers.{is_record, enr_request_body, can_enr_response, enr_response_body};
ghost use Rattle.written.specs.Written.{written, written_in};

use packet_bodies::{body_size, put_start};
use written::WriteError;

// Whether a record is one whole list of at most 300 bytes with its header, and nothing else.
fn is_record(record: &[u8]) -> bool
    ensures { result ≡ is_record «record».now }
{
    if record.len() <= 300 {
        let Some(item) = rlp::read_header(record) else {
            return false;
        };
        if item.list {
            item.skip + item.size == record.len()
        } else {
            false
        }
    } else {
        false
    }
}

fn can_enr_response(request_hash: &[u8], record: &[u8]) -> bool
    ensures { result ≡ can_enr_response request_hash.now «record».now }
{
    request_hash.len() == 32 && is_record(record)
}

// Writes the body of an ENRRequest.
pub fn write_enr_request(buf: &mut [u8], expiration: u64) -> Result<usize, WriteError>
    ensures answer { result ≡ written true (enr_request_body expiration) buf.old }
    ensures bytes { buf.new ≡ written_in true (enr_request_body expiration) buf.old }
{
    let size = rlp_write::uint_size(expiration);
    if buf.len() < body_size(size) {
        return Err(WriteError::Short);
    }
    let at = put_start(buf, 5, size);
    Ok(rlp_write::write_uint(buf, at, expiration))
}

// Writes the body of an ENRResponse.
pub fn write_enr_response(
    buf: &mut [u8],
    request_hash: &[u8],
    record: &[u8],
) -> Result<usize, WriteError>
    ensures answer { result ≡ written (can_enr_response request_hash.now «record».now) (enr_response_body request_hash.now «record».now) buf.old }
    ensures bytes { buf.new ≡ written_in (can_enr_response request_hash.now «record».now) (enr_response_body request_hash.now «record».now) buf.old }
{
    if !can_enr_response(request_hash, record) {
        return Err(WriteError::Unwritable);
    }
    let size = 33 + record.len();
    if buf.len() < body_size(size) {
        return Err(WriteError::Short);
    }
    let at = put_start(buf, 6, size);
    let at = rlp_write::write_string(buf, at, request_hash);
    octets::put_bytes(buf, at, record);
    Ok(at + record.len())
}

// Writers of FindNode and Neighbors into lent room.
#![tactic(auto)]

ghost use Rattle.std.specs.Prelude.{◌≡◌};
ghost use Rattle.packet_bodies.specs.Parts.{writable_nodes};
ghost use Rattle.packet_bodies.specs.Writers.{can_find_node, find_node_body, neighbors_body};
ghost use Rattle.written.specs.Written.{written, written_in};

use packet_bodies::{NodeList, body_size, put_start};
use written::WriteError;

// Writes the body of a FindNode.
pub fn write_find_node(buf: &mut [u8], target: &[u8], expiration: u64) -> Result<usize, WriteError>
    ensures answer { result ≡ written (can_find_node target.now) (find_node_body target.now expiration) buf.old }
    ensures bytes { buf.new ≡ written_in (can_find_node target.now) (find_node_body target.now expiration) buf.old }
{
    if target.len() != 64 {
        return Err(WriteError::Unwritable);
    }
    let size = 66 + rlp_write::uint_size(expiration);
    if buf.len() < body_size(size) {
        return Err(WriteError::Short);
    }
    let at = put_start(buf, 3, size);
    let at = rlp_write::write_string(buf, at, target);
    Ok(rlp_write::write_uint(buf, at, expiration))
}

// Writes the body of a Neighbors.
pub fn write_neighbors(
    buf: &mut [u8],
    nodes: NodeList,
    expiration: u64,
) -> Result<usize, WriteError>
    ensures answer { result ≡ written (writable_nodes nodes) (neighbors_body nodes expiration) buf.old }
    ensures bytes { buf.new ≡ written_in (writable_nodes nodes) (neighbors_body nodes expiration) buf.old }
{
    if !packet_bodies::nodes_writable(nodes) {
        return Err(WriteError::Unwritable);
    }
    let inner = packet_bodies::nodes_size(nodes);
    let size = rlp::header_size(inner) + inner + rlp_write::uint_size(expiration);
    if buf.len() < body_size(size) {
        return Err(WriteError::Short);
    }
    let at = put_start(buf, 4, size);
    let at = rlp_write::write_header(buf, at, 192, inner);
    let at = packet_bodies::put_nodes(buf, at, nodes);
    Ok(rlp_write::write_uint(buf, at, expiration))
}

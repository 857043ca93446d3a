// Boot lists: node records written as enode lines.
#![tactic(auto)]

ghost use Rattle.std.specs.Prelude.{◌≡◌, ◌≤◌, true, leb, length};
ghost use Rattle.octets.specs.Octets.{store};
ghost use Rattle.written.specs.Written.{written, written_in};
ghost use Rattle.enode.specs.Lists.{can_boot, boot_text};

use enode_write::{enode_size, is_writable, put_enode};
use node::Node;
use written::WriteError;

// Whether all nodes can be written.
fn all_writable(nodes: &[Node]) -> bool
    ensures { result ≡ can_boot nodes.now }
{
    nodes.iter().all(|node| is_writable(*node))
}

// Whether the lines of nodes that can be written fit into so many bytes.
fn lines_fit(room: usize, nodes: &[Node]) -> bool
    requires { can_boot nodes.now ≡ true }
    ensures { result ≡ leb (length (boot_text nodes.now)) room }
{
    let mut left = room;
    for node in nodes {
        let size = enode_size(*node);
        if left < size {
            return false;
        }
        left -= size;
    }
    true
}

// Writes the lines of nodes that can be written and fit, one after the other from the start, and returns the index after them.
fn put_lines(buf: &mut [u8], nodes: &[Node]) -> usize
    requires writable { can_boot nodes.now ≡ true }
    requires room { length (boot_text nodes.now) ≤ length buf.old }
    ensures next { result ≡ length (boot_text nodes.now) }
    ensures bytes { buf.new ≡ store buf.old 0 (boot_text nodes.now) }
{
    let mut at = 0;
    for node in nodes {
        at = put_enode(buf, at, *node);
    }
    at
}

// Writes the lines of the nodes one after the other, each with its 0A, at the start of the room. A list with a record that can't be
// written is refused, and then one that has no room: nothing is written.
pub fn write_enodes(buf: &mut [u8], nodes: &[Node]) -> Result<usize, WriteError>
    ensures { (result ≡ written (can_boot nodes.now) (boot_text nodes.now) buf.old)
        × (buf.new ≡ written_in (can_boot nodes.now) (boot_text nodes.now) buf.old) }
{
    if !all_writable(nodes) {
        return Err(WriteError::Unwritable);
    }
    if !lines_fit(buf.len(), nodes) {
        return Err(WriteError::Short);
    }
    Ok(put_lines(buf, nodes))
}

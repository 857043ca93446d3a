// Nodes for a Neighbors as C passes them: packed in 85 bytes each.
#![tactic(auto)]

ghost use Rattle.std.specs.Prelude.{◌≡◌, true, ◌+◌, ◌*◌, ◌/◌, ◌≤◌, ◌<◌, length, take};
ghost use Rattle.capi_nodes.specs.Packed.{packed_at, packed_list, is_packed};

use node::{Endpoint, Node};
use packet_bodies::NodeList;

// Node `i` of packed nodes.
fn packed_at(nodes: &[u8], i: usize) -> Node
    requires { (i < 16) × ((i + 1) * 85 ≤ length nodes.now) }
    ensures { result ≡ packed_at nodes.now i }
{
    let at = i * 85;
    let len = nodes[at];
    let mut address = [0u8; 16];
    octets::get_bytes(&mut address, nodes, at + 1);
    let udp = octets::number_at(nodes, at + 17, 2) as u16;
    let tcp = octets::number_at(nodes, at + 19, 2) as u16;
    let endpoint = Endpoint {
        len,
        address,
        udp,
        tcp,
    };
    let mut key = [0u8; 64];
    octets::get_bytes(&mut key, nodes, at + 21);
    Node { key, endpoint }
}

// The nodes of packed ones; what lies past `len` says nothing.
pub fn unpacked(nodes: &[u8]) -> NodeList
    requires { is_packed nodes.now ≡ true }
    ensures { (result.len ≡ length nodes.now / 85) × (take result.len result.nodes ≡ (packed_list nodes.now).nodes) }
{
    let len = nodes.len() / 85;
    let mut list = [node::no_node(); 16];
    for i in 0..len {
        list[i] = packed_at(nodes, i);
    }
    NodeList { len, nodes: list }
}

pub fn is_packed(nodes: &[u8]) -> bool
    ensures { result ≡ is_packed nodes.now }
{
    nodes.len() <= 1360 && nodes.len() % 85 == 0
}

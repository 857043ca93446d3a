// The nodes that a closest call lists: each of those chosen, and the answer.
#![tactic(auto)]

ghost use Rattle.std.specs.Prelude.{◌≡◌, ◌<◌};
ghost use Rattle.closest_nodes.specs.Listing.{answer_of, chosen_node};

use closest_choice::Choice;
use node::Node;

// The answer number of a closest call, how many nodes the list received, and how many distances were worked out: none where the call is
// refused.
#[derive(Clone, Copy)]
pub struct Listed {
    pub number: u8,
    pub count: usize,
    pub distances: usize,
}

// The node of the i-th entry that was chosen.
pub fn chosen_node(table: &[u8], choice: Choice, i: usize) -> Node
    requires { i < 16 }
    ensures { result ≡ chosen_node table.now choice i }
{
    let nearest = choice.nearest;
    let near = nearest.list[i];
    closest_choice::node_in(table, near.slot, near.index)
}

// What a closest call answers.
pub fn answer_of(choice: Choice) -> Listed
    ensures { result ≡ answer_of choice }
{
    Listed {
        number: choice.number,
        count: choice.nearest.count,
        distances: choice.distances,
    }
}

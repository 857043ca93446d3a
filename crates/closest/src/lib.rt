// The closest call of the public library: the nodes nearest to a target, written into a list that the caller lends.
#![tactic(auto)]

ghost use Rattle.std.specs.Prelude.{◌≡◌, ◌≤◌, length};
ghost use Rattle.closest_nodes.specs.Listing.{listed, list_after, with_chosen};
ghost use Rattle.closest.specs.Steps.{found};

use closest_choice::Choice;
use closest_nodes::Listed;
use node::Node;

// Writes the nodes that were chosen to the front of the list, and leaves the rest of it.
fn store_nodes(list: &mut [Node], table: &[u8], choice: Choice)
    requires { (choice.nearest.count ≤ 16) × (choice.nearest.count ≤ length list.old) }
    ensures { list.new ≡ with_chosen table.now choice list.old }
{
    for i in 0..choice.nearest.count {
        list[i] = closest_nodes::chosen_node(table, choice, i);
    }
}

// Writes the nodes nearest to the target, nearest first, to the front of the list that the caller lends. A list of fewer than sixteen
// records is refused.
pub fn closest(list: &mut [Node], table: &[u8], target: &[u8]) -> Listed
    ensures { (result ≡ listed table.now target.now (length list.old))
        × (list.new ≡ list_after table.now target.now list.old) }
{
    let choice = closest_choice::closest_on(table, target, list.len());
    store_nodes(list, table, choice);
    closest_nodes::answer_of(choice)
}

// What a closest call answers, and the list after it.
#[derive(Clone, Copy)]
pub struct Found {
    pub number: u8,
    pub count: usize,
    pub distances: usize,
    pub nodes: [Node; 16],
}

// A closest call with the list by value.
pub fn closest_with(list: [Node; 16], table: &[u8], target: &[u8]) -> Found
    ensures { result ≡ found table.now target.now list }
{
    let mut nodes = list;
    let answer = closest(&mut nodes, table, target);
    Found {
        number: answer.number,
        count: answer.count,
        distances: answer.distances,
        nodes,
    }
}

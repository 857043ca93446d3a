// Boot lists: node records read from enode lines.
#![tactic(auto)]

ghost use Rattle.std.specs.Prelude.{◌≡◌, length};
ghost use Rattle.enode_list.specs.List.{end_number, boot, list_after};
ghost use Rattle.enode_list.specs.Steps.{read_with};

use node::Node;

// Why a reading of enode lines ended. Lines count from 1.
#[derive(Clone, Copy, Debug, PartialEq, Eq)]
pub enum End {
    // All lines are read.
    Complete,
    // 22: this line doesn't fit.
    Unfit { line: usize },
    // 19: this line fits, and the list is full.
    Full { line: usize },
}

// How many records the list received, and why the reading ended.
#[derive(Clone, Copy, Debug, PartialEq, Eq)]
pub struct Boot {
    pub count: usize,
    pub end: End,
}

// The answer number of an end.
pub fn end_number(end: End) -> u8
    ensures { result ≡ end_number end }
{
    match end {
        End::Complete => numbers::DONE,
        End::Unfit { line: _ } => numbers::NOT_ENODE,
        End::Full { line: _ } => numbers::SHORT_ROOM,
    }
}

// Reads the nodes of enode lines to the front of the list that the caller lends. A line that doesn't fit, or a good one when the list is
// full, ends the reading.
pub fn read_enodes(list: &mut [Node], text: &[u8]) -> Boot
    ensures { (result ≡ boot (length list.old) text.now)
        × (list.new ≡ list_after text.now list.old) }
{
    let mut at = 0;
    let mut count = 0;
    while at < text.len() {
        let end = text::find(text, at, b'\n');
        let Some(node) = enode::read_enode(&text[at..end]) else {
            return Boot {
                count,
                end: End::Unfit { line: count + 1 },
            };
        };
        if count == list.len() {
            return Boot {
                count,
                end: End::Full { line: count + 1 },
            };
        }
        list[count] = node;
        count += 1;
        at = end + 1;
    }
    Boot {
        count,
        end: End::Complete,
    }
}

// What a reading answers, and the list after it.
#[derive(Clone, Copy)]
pub struct Read {
    pub boot: Boot,
    pub nodes: [Node; 16],
}

// A reading with the list by value.
pub fn read_enodes_with(list: [Node; 16], text: &[u8]) -> Read
    ensures { result ≡ read_with text.now list }
{
    let mut nodes = list;
    let boot = read_enodes(&mut nodes, text);
    Read { boot, nodes }
}

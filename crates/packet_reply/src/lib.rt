// A reply to a FindNode: the packets that its nodes take, at most twelve in each.
#![tactic(auto)]

ghost use Rattle.std.specs.Prelude.{◌≡◌};
ghost use Rattle.packet_reply.specs.Reply.{reply_count, reply_part};

// The nodes of one packet: `len` of them from `start` on.
#[derive(Clone, Copy)]
pub struct Part {
    pub start: usize,
    pub len: usize,
}

// How many Neighbors packets a reply of so many nodes takes: one also of none.
pub fn reply_count(nodes: usize) -> usize
    ensures { result ≡ reply_count nodes }
{
    if nodes == 0 {
        return 1;
    }
    (nodes - 1) / 12 + 1
}

// The nodes of packet k, counted from 0; none past the last packet.
pub fn reply_part(nodes: usize, k: usize) -> Part
    ensures { result ≡ reply_part nodes k }
{
    if nodes / 12 < k {
        return Part {
            start: nodes,
            len: 0,
        };
    }
    let start = 12 * k;
    let left = nodes - start;
    if left < 12 {
        return Part { start, len: left };
    }
    Part { start, len: 12 }
}

// No code: definitions and laws of a log's run, and the values that they speak of. Line numbers count from 1.
#![tactic(auto)]

// Why a node is or isn't in the table.
#[derive(Clone, Copy)]
pub enum Reason {
    // The line at which it was seated, and the last one that put it at the tail.
    Seated(u64, u64),
    // The line since which it waits.
    Waiting(u64),
    // The sweep that removed it, and the line of the ping that was overdue.
    Ping(u64, u64),
    // The sweep that removed it from the line because its proof was too old.
    Proof(u64),
    // Never held: the last answer number that its lines got.
    Never(u8),
    // No line names it.
    Unnamed,
}

// The latest line that seated a node, put it in line or removed it.
#[derive(Clone, Copy)]
pub enum Standing {
    NotYet,
    SeatedAt(u64),
    WaitingSince(u64),
    PingLost(u64, u64),
    ProofLost(u64),
}

// What is carried from line to line of one node. `lines`: how many are read. `tail`, `pinged`: the latest lines that put it at the tail and that recorded
// a ping to it, or 0. `named`: whether a line has it as signer or ping target, and `number` the answer number of the last that has.
#[derive(Clone, Copy)]
pub struct Trail {
    pub lines: u64,
    pub standing: Standing,
    pub tail: u64,
    pub pinged: u64,
    pub named: bool,
    pub number: u8,
}

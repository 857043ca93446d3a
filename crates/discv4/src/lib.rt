// The public library. Each function's contract stands where the function does; none has a precondition.
#![tactic(auto)]

// ---- the table's calls
// `init` makes lent bytes a fresh table. `datagram`, `ping_sent` and `sweep` count their answers in lent counters, `burst` those of its
// datagrams, `closest` fills a lent list and also tells how many distances were worked out. Callers inside the repository have forms that take
// counters or list by value: crates counted_datagram, counted_ping_sent, counted_sweep, counted_burst and closest.

pub use closest::closest;
pub use closest_nodes::Listed;
pub use counted_burst::burst;
pub use counted_datagram::datagram;
pub use counted_ping_sent::ping_sent;
pub use counted_sweep::sweep;
pub use table::init;
// by a reading of 32 bits: one front, `full_clock`, for all of them
pub use call_low::{ClockError, full_clock};
pub use clock32::{LowMillis, widen};
pub use counted_burst_low::burst_low;
pub use counted_datagram_low::datagram_low;
pub use counted_ping_sent_low::ping_sent_low;
pub use counted_sweep_low::sweep_low;
// the answers: a call that gives nothing else answers `Ok`, or why it is refused
pub use call_answer::{Outcome, Received, Standing};
pub use numbers::{Refusal, answer_number};

// ---- what a table tells
// Lent to read. `table_state` has the numbers of the printout's first row, `print_table` writes the printout into lent bytes. `head` has the first
// entry of a key's bucket, `find` whether a key's node is held and where; they test only the bucket that the key touches.
pub use call_key::{Found, HeadNode, Held, find, head};
pub use printout_table::{Printed, TableState, print_table, table_state};

// ---- counters
pub use counters::{Counters, cleared, count_of};

// ---- packets written
// The six bodies, and the datagram of a signature and a body; the host signs the Keccak-256 of a body. `reply_count` and `reply_part` say
// how the nodes of a reply go into Neighbors packets.
pub use keccak::keccak256;
pub use packet_bodies::NodeList;
pub use packet_join::join;
pub use packet_reply::{Part as ReplyPart, reply_count, reply_part};
pub use packet_write_enr::{write_enr_request, write_enr_response};
pub use packet_write_nodes::{write_find_node, write_neighbors};
pub use packet_write_ping::write_ping;
pub use packet_write_pong::write_pong;
pub use written::{WriteError, written_number, written_size};

// ---- packets read
// An accepted datagram's packet has numbers, and spans of the datagram: `field_part` gives the bytes of an address, a target or a
// hash, `node_count` and `node_at` the nodes of a Neighbors. The address in a Ping's `from` may be unknown.
pub use packet::{EnrRequest, EnrResponse, FindNode, Neighbors, Ping, Pong, Recipient, Sender};
pub use packet_datagram::record_part;
pub use packet_envelope::{hash_part, signature_part};
pub use packet_fields::{node_at, node_count};
pub use packet_span::{Span, bytes_of as field_part};

// ---- boot lists
// `read_enodes` fills a lent list of nodes from enode lines, `write_enodes` writes a list as such lines; `read_enode` and `write_enode` are the same of one.
pub use enode::read_enode;
pub use enode_list::{Boot, End, end_number, read_enodes};
pub use enode_write::write_enode;
pub use enode_write_list::write_enodes;

// ---- clocks and nodes
pub use entry::PingState;
pub use node::{Endpoint, MonotonicMillis, Node, UnixSeconds};

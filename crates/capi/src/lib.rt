// The C boundary of the public library, for a host in C or another language: include/coghammer.h declares it. A slice is a pointer and a
// length; an array behind a reference is a pointer. A code is an answer number in the low byte and a value above it.
#![tactic(auto)]

ghost use Rattle.std.specs.Prelude.{◌≡◌, true, length};
ghost use Rattle.keccak.specs.Sponge as sponge;
ghost use Rattle.call_history.specs.Model as model;
ghost use Rattle.call_model.specs.Calls.{answer_on, bytes_after};
ghost use Rattle.call_model.specs.Reading.{reading};
ghost use Rattle.call_datagram.specs.Received.{received};
ghost use Rattle.packet_span.specs.Parts as span;
ghost use Rattle.packet_fields.specs.Spans as spans;
ghost use Rattle.packet_datagram.specs.Datagram.{packet_in};
ghost use Rattle.written.specs.Written.{written, written_in, written_number};
ghost use Rattle.packet_bodies.specs.Writers.{can_ping, ping_body, can_pong, pong_body, can_find_node, find_node_body, neighbors_body, enr_request_body, can_enr_response, enr_response_body};
ghost use Rattle.packet_join.specs.Join as joining;
ghost use Rattle.packet_reply.specs.Reply.{reply_count, reply_part};
ghost use Rattle.table.specs.Init.{init_answer, init_table};
ghost use Rattle.counters.specs.Counters.{raised, cleared};
ghost use Rattle.counters.specs.History.{counted};
ghost use Rattle.call_burst_lists.specs.Lists.{burst_of};
ghost use Rattle.call_burst.specs.Burst.{burst_number, numbers_of, table_after};
ghost use Rattle.call_burst.specs.Burst as bursts;
ghost use Rattle.closest_nodes.specs.Listing.{listed, list_after};
ghost use Rattle.capi_codes.specs.Codes.{number_in, received_code, listed_code, written_code, seq_of};
ghost use Rattle.capi_packet.specs.Fields.{read_number, fields_after};
ghost use Rattle.printout_table.specs.Told.{state_of, printed, printed_in};
ghost use Rattle.call_key.specs.Head.{head_on};
ghost use Rattle.call_key.specs.Held.{found_on};
ghost use Rattle.capi_table.specs.Told.{told_state, told_size, node_of_head, told_head, node_of_found, told_found};
ghost use Rattle.capi_nodes.specs.Packed.{packed_list, can_packed};
ghost use Rattle.enode.specs.Lists.{can_boot, boot_text};
ghost use Rattle.enode_list.specs.List as boots;
ghost use Rattle.capi_enode.specs.Told.{told_boot, size_after};

use counters::Counters;
use node::Node;
use packet_span::Span;

// the table's calls by a reading of 32 bits
pub mod low;

// ---- the table's calls

// Makes the lent bytes a fresh table. The answer number: 0, 1 or 5.
#[unsafe(no_mangle)]
pub extern "C" fn coghammer_init(table: &mut [u8], key: &[u8], buckets: usize) -> u8
    ensures value { result ≡ init_answer table.old key.now buckets }
    ensures table_after { table.new ≡ init_table table.old key.now buckets }
{
    numbers::answer_number(discv4::init(table, key, buckets))
}

// A datagram came from the sender's address and UDP port, signed with this key; the key is empty where the signature recovers none. The
// code of the answer number and, where it is 0, of the packet type and 256 times the outcome: of a Ping 1 if a ping is due; of a Pong 0 if
// its sender was an entry, 1 if it took an entry, 2 if it waits for one, 3 if it waits because its range has two; else 0.
#[unsafe(no_mangle)]
pub extern "C" fn coghammer_datagram(
    counters: &mut Counters,
    table: &mut [u8],
    clock: u64,
    unix: u64,
    address: &[u8],
    port: u16,
    signer: &[u8],
    datagram: &[u8],
) -> u32
    ensures value { result ≡ received_code (received table.old clock unix address.now port signer.now datagram.now) }
    ensures table_after { table.new ≡ bytes_after reading table.old (model.datagram clock unix address.now port signer.now datagram.now) }
    ensures counters_after { counters.new ≡ raised counters.old (number_in result) }
{
    let answer = capi_calls::datagram_on(table, clock, unix, address, port, signer, datagram);
    counters::count(counters, capi_codes::number_in(answer));
    answer
}

// A ping with this hash went out to a node. The answer number.
#[unsafe(no_mangle)]
pub extern "C" fn coghammer_ping_sent(
    counters: &mut Counters,
    table: &mut [u8],
    clock: u64,
    key: &[u8],
    address: &[u8],
    udp: u16,
    tcp: u16,
    hash: &[u8],
) -> u8
    ensures value { result ≡ answer_on reading table.old (model.ping_sent clock key.now address.now udp tcp hash.now) }
    ensures table_after { table.new ≡ bytes_after reading table.old (model.ping_sent clock key.now address.now udp tcp hash.now) }
    ensures counters_after { counters.new ≡ raised counters.old result }
{
    let answer = capi_calls::ping_sent_on(table, clock, key, address, udp, tcp, hash);
    counters::count(counters, answer);
    answer
}

// Nodes that did not answer in time go, then replacements with an expired proof, and proved replacements take free entries. The answer
// number.
#[unsafe(no_mangle)]
pub extern "C" fn coghammer_sweep(counters: &mut Counters, table: &mut [u8], clock: u64) -> u8
    ensures value { result ≡ answer_on reading table.old (model.sweep clock) }
    ensures table_after { table.new ≡ bytes_after reading table.old (model.sweep clock) }
    ensures counters_after { counters.new ≡ raised counters.old result }
{
    let answer = capi_calls::sweep_on(table, clock);
    counters::count(counters, answer);
    answer
}

// Clears the counters.
#[unsafe(no_mangle)]
pub extern "C" fn coghammer_clear(counters: &mut Counters)
    ensures { counters.new ≡ cleared }
{
    *counters = discv4::cleared();
}

// Writes the nodes nearest to the target, nearest first, to the front of the list. The code of the answer number, of how many they are and of how
// many distances were worked out.
#[unsafe(no_mangle)]
pub extern "C" fn coghammer_closest(list: &mut [Node], table: &[u8], target: &[u8]) -> u32
    ensures { (result ≡ listed_code (listed table.now target.now (length list.old)))
        × (list.new ≡ list_after table.now target.now list.old) }
{
    let answer = discv4::closest(list, table, target);
    capi_codes::listed_code(answer)
}

// Up to 32 datagrams that came, end to end in `buffer` by `lengths`; for each a signer's key of 64 bytes, all zeros where the signature
// recovers none, an address of 17 (its length, and 16 bytes), a UDP port and the two clocks. Each one's answer number goes into `numbers` and
// is counted. The answer number of the burst is not: 0, or 28 before anything is handled where the lists don't fit together.
#[unsafe(no_mangle)]
pub extern "C" fn coghammer_burst(
    counters: &mut Counters,
    table: &mut [u8],
    numbers: &mut [u8],
    buffer: &[u8],
    lengths: &[usize],
    signers: &[u8],
    addresses: &[u8],
    ports: &[u16],
    millis: &[u64],
    unix: &[u64],
) -> u8
    ensures value { result ≡ burst_number (burst_of buffer.now lengths.now signers.now addresses.now ports.now millis.now unix.now) (length numbers.old) }
    ensures table_after { table.new ≡ table_after table.old (burst_of buffer.now lengths.now signers.now addresses.now ports.now millis.now unix.now) (length numbers.old) }
    ensures numbers_after { numbers.new ≡ bursts.list_after table.old (burst_of buffer.now lengths.now signers.now addresses.now ports.now millis.now unix.now) numbers.old }
    ensures counters_after { counters.new ≡ counted counters.old (numbers_of table.old (burst_of buffer.now lengths.now signers.now addresses.now ports.now millis.now unix.now) (length numbers.old)) }
{
    let done = counted_burst::burst_with(
        *counters, table, numbers, buffer, lengths, signers, addresses, ports, millis, unix,
    );
    *counters = done.counters;
    done.number
}

// ---- what a table tells. Where the answer number isn't 0, nothing is written.

// Tells the clock, how many buckets the table has, and how many entries and replacements they hold. The answer number: 0 or 1.
#[unsafe(no_mangle)]
pub extern "C" fn coghammer_state(table: &[u8], told: &mut [u64; 4]) -> u8
    ensures value { result ≡ (state_of table.now).number }
    ensures told_after { told.new ≡ told_state (state_of table.now) told.old }
{
    let state = discv4::table_state(table);
    capi_table::tell_state(told, state)
}

// Writes the printout of the table, and tells its size. The answer number: 0, 1 or 19.
#[unsafe(no_mangle)]
pub extern "C" fn coghammer_print(buf: &mut [u8], table: &[u8], size: &mut [u64; 1]) -> u8
    ensures value { result ≡ (printed buf.old table.now).number }
    ensures buf_after { buf.new ≡ printed_in buf.old table.now }
    ensures size_after { size.new ≡ told_size (printed buf.old table.now) size.old }
{
    let answer = discv4::print_table(buf, table);
    capi_table::tell_printed(size, answer)
}

// The first entry of the key's bucket, zeros where it has none, and told are 1 if a ping is out to it, and since which millisecond. The
// answer number: 0, 1, 5, 7 or 12.
#[unsafe(no_mangle)]
pub extern "C" fn coghammer_head(
    table: &[u8],
    key: &[u8],
    node: &mut Node,
    ping: &mut [u64; 2],
) -> u8
    ensures value { result ≡ (head_on table.now key.now).number }
    ensures node_after { node.new ≡ node_of_head (head_on table.now key.now) node.old }
    ensures ping_after { ping.new ≡ told_head (head_on table.now key.now) ping.old }
{
    let head = discv4::head(table, key);
    *node = capi_table::node_of_head(*node, head);
    capi_table::tell_head(ping, head)
}

// The key's node, zeros where it isn't held, and told are 1 if it has a seat and 2 if it waits, its logarithmic distance and its place,
// counted from 1. The answer number: 0, 1, 5, 7 or 12.
#[unsafe(no_mangle)]
pub extern "C" fn coghammer_find(
    table: &[u8],
    key: &[u8],
    node: &mut Node,
    told: &mut [u64; 3],
) -> u8
    ensures value { result ≡ (found_on table.now key.now).number }
    ensures node_after { node.new ≡ node_of_found (found_on table.now key.now) node.old }
    ensures told_after { told.new ≡ told_found (found_on table.now key.now) told.old }
{
    let found = discv4::find(table, key);
    *node = capi_table::node_of_found(*node, found);
    capi_table::tell_found(told, found)
}

// ---- fields of a datagram

// The fields of a datagram's packet, in the places that capi_packet/specs/Fields.antt names; a byte string is its start in the datagram and its length.
// The answer number: 0, or 8, 9 or 10 and nothing is written. Only the type and the data are looked at.
#[unsafe(no_mangle)]
pub extern "C" fn coghammer_packet(datagram: &[u8], fields: &mut [u64; 20]) -> u8
    ensures value { result ≡ read_number (packet_in datagram.now) }
    ensures fields_after { fields.new ≡ fields_after (packet_in datagram.now) fields.old }
{
    let old = *fields;
    let read = capi_packet::read_fields(datagram, old);
    if read.number != 0 {
        return read.number;
    }
    let places = read.fields;
    *fields = places;
    numbers::DONE
}

// How many nodes a Neighbors lists, by the start and length of its nodes.
#[unsafe(no_mangle)]
pub extern "C" fn coghammer_node_count(datagram: &[u8], start: usize, len: usize) -> usize
    ensures { result ≡ length (spans.nodes_of (span.bytes_of datagram.now (record { start = start; len = len }))) }
{
    discv4::node_count(datagram, Span { start, len })
}

// Node `n` of them, counted from 0; zeros where there is none.
#[unsafe(no_mangle)]
pub extern "C" fn coghammer_node_at(
    datagram: &[u8],
    start: usize,
    len: usize,
    n: usize,
    node: &mut Node,
)
    ensures { node.new ≡ spans.node_at n (span.bytes_of datagram.now (record { start = start; len = len })) }
{
    *node = capi_packet::node_from(datagram, start, len, n);
}

// ---- packets written: the code of 0 and the size, or of 19 or 20

#[unsafe(no_mangle)]
pub extern "C" fn coghammer_write_ping(
    buf: &mut [u8],
    from: &[u8],
    from_udp: u16,
    from_tcp: u16,
    to: &[u8],
    to_udp: u16,
    expiration: u64,
    has_enr_seq: bool,
    enr_seq: u64,
) -> u32
    ensures answer { result ≡ written_code (written (can_ping from.now to.now) (ping_body from.now from_udp from_tcp to.now to_udp expiration (seq_of has_enr_seq enr_seq)) buf.old) }
    ensures bytes { buf.new ≡ written_in (can_ping from.now to.now) (ping_body from.now from_udp from_tcp to.now to_udp expiration (seq_of has_enr_seq enr_seq)) buf.old }
{
    let seq = capi_codes::enr_seq_of(has_enr_seq, enr_seq);
    capi_codes::written_code(discv4::write_ping(
        buf, from, from_udp, from_tcp, to, to_udp, expiration, seq,
    ))
}

#[unsafe(no_mangle)]
pub extern "C" fn coghammer_write_pong(
    buf: &mut [u8],
    to: &[u8],
    to_udp: u16,
    ping_hash: &[u8],
    expiration: u64,
    has_enr_seq: bool,
    enr_seq: u64,
) -> u32
    ensures answer { result ≡ written_code (written (can_pong to.now ping_hash.now) (pong_body to.now to_udp ping_hash.now expiration (seq_of has_enr_seq enr_seq)) buf.old) }
    ensures bytes { buf.new ≡ written_in (can_pong to.now ping_hash.now) (pong_body to.now to_udp ping_hash.now expiration (seq_of has_enr_seq enr_seq)) buf.old }
{
    let seq = capi_codes::enr_seq_of(has_enr_seq, enr_seq);
    capi_codes::written_code(discv4::write_pong(buf, to, to_udp, ping_hash, expiration, seq))
}

#[unsafe(no_mangle)]
pub extern "C" fn coghammer_write_find_node(buf: &mut [u8], target: &[u8], expiration: u64) -> u32
    ensures answer { result ≡ written_code (written (can_find_node target.now) (find_node_body target.now expiration) buf.old) }
    ensures bytes { buf.new ≡ written_in (can_find_node target.now) (find_node_body target.now expiration) buf.old }
{
    capi_codes::written_code(discv4::write_find_node(buf, target, expiration))
}

// The nodes are packed in 85 bytes each: address length 1, address 16, UDP port 2, TCP port 2, key 64; numbers big-endian. Bytes that are
// not whole nodes, or more than sixteen, are 20.
#[unsafe(no_mangle)]
pub extern "C" fn coghammer_write_neighbors(buf: &mut [u8], nodes: &[u8], expiration: u64) -> u32
    ensures answer { result ≡ written_code (written (can_packed nodes.now) (neighbors_body (packed_list nodes.now) expiration) buf.old) }
    ensures bytes { buf.new ≡ written_in (can_packed nodes.now) (neighbors_body (packed_list nodes.now) expiration) buf.old }
{
    if !capi_nodes::is_packed(nodes) {
        return capi_codes::code(numbers::NOT_WRITABLE, 0);
    }
    capi_codes::written_code(discv4::write_neighbors(buf, capi_nodes::unpacked(nodes), expiration))
}

// How many Neighbors packets a reply of so many nodes takes: one also of none.
#[unsafe(no_mangle)]
pub extern "C" fn coghammer_reply_count(nodes: usize) -> usize
    ensures { result ≡ reply_count nodes }
{
    discv4::reply_count(nodes)
}

// The first node of packet `k` of them, counted from 0.
#[unsafe(no_mangle)]
pub extern "C" fn coghammer_reply_start(nodes: usize, k: usize) -> usize
    ensures { result ≡ (reply_part nodes k).start }
{
    let part = discv4::reply_part(nodes, k);
    part.start
}

// How many nodes packet `k` has.
#[unsafe(no_mangle)]
pub extern "C" fn coghammer_reply_len(nodes: usize, k: usize) -> usize
    ensures { result ≡ (reply_part nodes k).len }
{
    let part = discv4::reply_part(nodes, k);
    part.len
}

#[unsafe(no_mangle)]
pub extern "C" fn coghammer_write_enr_request(buf: &mut [u8], expiration: u64) -> u32
    ensures answer { result ≡ written_code (written true (enr_request_body expiration) buf.old) }
    ensures bytes { buf.new ≡ written_in true (enr_request_body expiration) buf.old }
{
    capi_codes::written_code(discv4::write_enr_request(buf, expiration))
}

#[unsafe(no_mangle)]
pub extern "C" fn coghammer_write_enr_response(
    buf: &mut [u8],
    request_hash: &[u8],
    record: &[u8],
) -> u32
    ensures answer { result ≡ written_code (written (can_enr_response request_hash.now «record».now) (enr_response_body request_hash.now «record».now) buf.old) }
    ensures bytes { buf.new ≡ written_in (can_enr_response request_hash.now «record».now) (enr_response_body request_hash.now «record».now) buf.old }
{
    capi_codes::written_code(discv4::write_enr_response(buf, request_hash, record))
}

// Writes the datagram of a signature and a body.
#[unsafe(no_mangle)]
pub extern "C" fn coghammer_join(buf: &mut [u8], signature: &[u8], body: &[u8]) -> u32
    ensures answer { result ≡ written_code (written (joining.can_join signature.now body.now) (joining.datagram signature.now body.now) buf.old) }
    ensures bytes { buf.new ≡ written_in (joining.can_join signature.now body.now) (joining.datagram signature.now body.now) buf.old }
{
    capi_codes::written_code(discv4::join(buf, signature, body))
}

// The Keccak-256 of a message.
#[unsafe(no_mangle)]
pub extern "C" fn coghammer_keccak256(message: &[u8], hash: &mut [u8; 32])
    ensures { hash.new ≡ sponge.keccak256 message.now }
{
    *hash = discv4::keccak256(message);
}

// ---- boot lists

// Reads the nodes of enode lines to the front of the list. Always 0. Told: how many records the list received, the number of the reading's
// end (0, 22 or 19), and its line, counted from 1, or 0.
#[unsafe(no_mangle)]
pub extern "C" fn coghammer_read_enodes(list: &mut [Node], text: &[u8], told: &mut [u64; 3]) -> u8
    ensures value { result ≡ 0 }
    ensures list_after { list.new ≡ boots.list_after text.now list.old }
    ensures told_after { told.new ≡ told_boot (boots.boot (length list.old) text.now) }
{
    let boot = discv4::read_enodes(list, text);
    capi_enode::tell_read(told, boot)
}

// Writes the enode lines of the nodes, each with its 0A. The answer number: 0 and the size is how many bytes they are; or 19 or 20 and
// nothing is written.
#[unsafe(no_mangle)]
pub extern "C" fn coghammer_write_enodes(buf: &mut [u8], nodes: &[Node], size: &mut [u64; 1]) -> u8
    ensures value { result ≡ written_number (written (can_boot nodes.now) (boot_text nodes.now) buf.old) }
    ensures buf_after { buf.new ≡ written_in (can_boot nodes.now) (boot_text nodes.now) buf.old }
    ensures size_after { size.new ≡ size_after (written (can_boot nodes.now) (boot_text nodes.now) buf.old) size.old }
{
    let answer = discv4::write_enodes(buf, nodes);
    capi_enode::tell_written(size, answer)
}

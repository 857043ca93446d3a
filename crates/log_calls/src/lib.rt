// The calls of a log's lines: a line's fields are decoded, its call is made on the table, and its answer is written into lent bytes. The lines of a
// log lead to no bytes or to a sound table, so the calls test none.
#![tactic(auto)]

ghost use Rattle.std.specs.Prelude.{◌≡◌, true, ◌+◌, ◌≤◌, length};
ghost use Rattle.octets.specs.Octets.{store};
ghost use Rattle.call_history.specs.Model as model;
ghost use Rattle.call_model.specs.Calls.{answer_on, bytes_after};
ghost use Rattle.call_model.specs.IfAny.{sound_if_any};
ghost use Rattle.call_model.specs.Reading.{reading};
ghost use Rattle.call_datagram.specs.Received.{received};
ghost use Rattle.log_line.specs.Fields.{said};
ghost use Rattle.log_answer.specs.AnswerRows.{answer_room, number_row};
ghost use Rattle.log_received.specs.AnswerLine.{received_row};

use log_answer::put_number;
use log_line::decode_field;
use node::{MonotonicMillis, UnixSeconds};
use packet_span::Span;

// `rx`: milliseconds, Unix seconds, address, port, signer, datagram.
pub fn rx(
    table: &mut [u8],
    out: &mut [u8],
    line: &[u8],
    clock: u64,
    unix: u64,
    address: Span,
    port: u16,
    signer: Span,
    datagram: Span,
) -> usize
    requires answer_room_in_bounds { (answer_room ≤ length out.old) × ((length line.now ≤ 3000) × ((address.start + address.len ≤ length line.now) × ((signer.start + signer.len ≤ length line.now) × (datagram.start + datagram.len ≤ length line.now)))) }
    requires table_value { sound_if_any table.old ≡ true }
    ensures len { result ≡ length (received_row (received table.old clock unix (said line.now address) port (said line.now signer) (said line.now datagram))) }
    ensures written { out.new ≡ store out.old 0 (received_row (received table.old clock unix (said line.now address) port (said line.now signer) (said line.now datagram))) }
    ensures bytes { table.new ≡ bytes_after reading table.old (model.datagram clock unix (said line.now address) port (said line.now signer) (said line.now datagram)) }
    ensures room { result ≤ answer_room }
{
    let mut from = [0u8; 1500];
    let a = decode_field(line, address, &mut from);
    let mut key = [0u8; 1500];
    let k = decode_field(line, signer, &mut key);
    let mut bytes = [0u8; 1500];
    let n = decode_field(line, datagram, &mut bytes);
    let received = call_datagram::datagram_on_sound(
        table,
        MonotonicMillis(clock),
        UnixSeconds(unix),
        &from[0..a],
        port,
        &key[0..k],
        &bytes[0..n],
    );
    log_received::put_received(out, received)
}

// `sent`: milliseconds, key, address, UDP port, TCP port, hash.
pub fn sent(
    table: &mut [u8],
    out: &mut [u8],
    line: &[u8],
    clock: u64,
    key: Span,
    address: Span,
    udp: u16,
    tcp: u16,
    hash: Span,
) -> usize
    requires answer_room_in_bounds { (answer_room ≤ length out.old) × ((length line.now ≤ 3000) × ((key.start + key.len ≤ length line.now) × ((address.start + address.len ≤ length line.now) × (hash.start + hash.len ≤ length line.now)))) }
    requires table_value { sound_if_any table.old ≡ true }
    ensures len { result ≡ length (number_row (answer_on reading table.old (model.ping_sent clock (said line.now key) (said line.now address) udp tcp (said line.now hash)))) }
    ensures written { out.new ≡ store out.old 0 (number_row (answer_on reading table.old (model.ping_sent clock (said line.now key) (said line.now address) udp tcp (said line.now hash)))) }
    ensures bytes { table.new ≡ bytes_after reading table.old (model.ping_sent clock (said line.now key) (said line.now address) udp tcp (said line.now hash)) }
    ensures room { result ≤ answer_room }
{
    let mut node = [0u8; 1500];
    let k = decode_field(line, key, &mut node);
    let mut to = [0u8; 1500];
    let a = decode_field(line, address, &mut to);
    let mut bytes = [0u8; 1500];
    let n = decode_field(line, hash, &mut bytes);
    let answer = call_ping_sent::ping_sent_on_sound(
        table,
        MonotonicMillis(clock),
        &node[0..k],
        &to[0..a],
        udp,
        tcp,
        &bytes[0..n],
    );
    put_number(out, numbers::answer_number(answer))
}

// `sweep`: milliseconds.
pub fn sweep(table: &mut [u8], out: &mut [u8], clock: u64) -> usize
    requires answer_room_in_bounds { answer_room ≤ length out.old }
    requires table_value { sound_if_any table.old ≡ true }
    ensures len { result ≡ length (number_row (answer_on reading table.old (model.sweep clock))) }
    ensures written { out.new ≡ store out.old 0 (number_row (answer_on reading table.old (model.sweep clock))) }
    ensures bytes { table.new ≡ bytes_after reading table.old (model.sweep clock) }
    ensures room { result ≤ answer_room }
{
    let answer = call_sweep::sweep_on_sound(table, MonotonicMillis(clock));
    put_number(out, numbers::answer_number(answer))
}

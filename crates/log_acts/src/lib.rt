// What a line of a log does to one node. The line is taken as a replay takes it.
#![tactic(auto)]

ghost use Rattle.std.specs.Prelude.{◌≡◌, true, false, ◌||◌, ◌+◌, ◌≤◌, length};
ghost use Rattle.call_history.specs.Model as model;
ghost use Rattle.call_model.specs.Calls.{answer_on, bytes_after};
ghost use Rattle.call_model.specs.IfAny.{sound_if_any};
ghost use Rattle.call_model.specs.Reading.{reading};
ghost use Rattle.log_line.specs.Fields.{said};
ghost use Rattle.log_lines.specs.Lines.{whole};
ghost use Rattle.log_state.specs.State.{state_of};
ghost use Rattle.log_replay.specs.Replay.{Reached};
ghost use Rattle.log_acts.specs.Acts.{is_pong_outcome, idle, heard_acts, pinged_acts, swept_acts, acts_by};
ghost use Rattle.log_acts.specs.ActedLine.{ActedLine};

use bucket_lookup::Lookup;
use call_answer::{Outcome, Received};
use log_line::{Line, decode_field};
use log_state::Replay;
use node::{MonotonicMillis, UnixSeconds};
use packet_span::Span;

// What a line did, but for where the node stands after it: its answer number; whether it names the node, put it at the tail where it was seated,
// recorded a ping to it, is a sweep at which its ping is overdue; and whether the node may stand elsewhere after it.
#[derive(Clone, Copy)]
pub struct Acted {
    pub number: u8,
    pub named: bool,
    pub moves: bool,
    pub pings: bool,
    pub overdue: bool,
    pub looks: bool,
}

// A line that is nothing to the node.
pub fn idle(number: u8) -> Acted
    ensures { result ≡ idle number }
{
    Acted {
        number,
        named: false,
        moves: false,
        pings: false,
        overdue: false,
        looks: false,
    }
}

// kept: a public function.
pub fn either(a: bool, b: bool) -> bool
    ensures { result ≡ (a || b) }
{
    a || b
}

fn is_pong(received: Received) -> bool
    ensures { result ≡ is_pong_outcome received.outcome }
{
    matches!(received.outcome, Outcome::Pong(_, _))
}

// A datagram of the node, where it stood at `place`.
fn heard(
    place: Lookup,
    received: Received,
    clock: MonotonicMillis,
    address: &[u8],
    port: u16,
) -> Acted
    ensures { result ≡ heard_acts place received clock.0 address.now port }
{
    let number = call_answer::number(received);
    let verified = !place.not_verified(address, port, clock);
    let tail = is_pong(received) || verified;
    Acted {
        number,
        named: true,
        moves: number == 0 && place.has_entry() && tail,
        pings: false,
        overdue: false,
        looks: true,
    }
}

// A datagram from `signer`.
fn hear(
    table: &mut [u8],
    key: &[u8],
    place: Lookup,
    clock: u64,
    unix: u64,
    address: &[u8],
    port: u16,
    signer: &[u8],
    datagram: &[u8],
) -> Acted
    requires { sound_if_any table.old ≡ true }
    ensures acted { result ≡ acts_by key.now place (answer_on reading table.old (model.datagram clock unix address.now port signer.now datagram.now)) (model.datagram clock unix address.now port signer.now datagram.now) }
    ensures bytes { table.new ≡ bytes_after reading table.old (model.datagram clock unix address.now port signer.now datagram.now) }
{
    let time = MonotonicMillis(clock);
    let received = call_datagram::datagram_on_sound(
        table,
        time,
        UnixSeconds(unix),
        address,
        port,
        signer,
        datagram,
    );
    if octets::same_bytes(key, signer) {
        return heard(place, received, time, address, port);
    }
    idle(call_answer::number(received))
}

// `rx`: milliseconds, Unix seconds, address, port, signer, datagram.
fn rx(
    table: &mut [u8],
    key: &[u8],
    place: Lookup,
    line: &[u8],
    clock: u64,
    unix: u64,
    address: Span,
    port: u16,
    signer: Span,
    datagram: Span,
) -> Acted
    requires line_len_bound { (length line.now ≤ 3000) × ((address.start + address.len ≤ length line.now) × ((signer.start + signer.len ≤ length line.now) × (datagram.start + datagram.len ≤ length line.now))) }
    requires table_value { sound_if_any table.old ≡ true }
    ensures acted { result ≡ acts_by key.now place (answer_on reading table.old (model.datagram clock unix (said line.now address) port (said line.now signer) (said line.now datagram))) (model.datagram clock unix (said line.now address) port (said line.now signer) (said line.now datagram)) }
    ensures bytes { table.new ≡ bytes_after reading table.old (model.datagram clock unix (said line.now address) port (said line.now signer) (said line.now datagram)) }
{
    let mut from = [0; 1500];
    let a = decode_field(line, address, &mut from);
    let mut by = [0; 1500];
    let k = decode_field(line, signer, &mut by);
    let mut bytes = [0; 1500];
    let n = decode_field(line, datagram, &mut bytes);
    hear(
        table,
        key,
        place,
        clock,
        unix,
        &from[0..a],
        port,
        &by[0..k],
        &bytes[0..n],
    )
}

// A ping to the node that was answered with this number.
fn pinged(number: u8) -> Acted
    ensures { result ≡ pinged_acts number }
{
    Acted {
        number,
        named: true,
        moves: false,
        pings: number == 0,
        overdue: false,
        looks: true,
    }
}

// `sent`: milliseconds, key, address, UDP port, TCP port, hash.
fn sent(
    table: &mut [u8],
    key: &[u8],
    line: &[u8],
    clock: u64,
    target: Span,
    address: Span,
    udp: u16,
    tcp: u16,
    hash: Span,
) -> Acted
    requires line_len_bound { (length line.now ≤ 3000) × ((target.start + target.len ≤ length line.now) × ((address.start + address.len ≤ length line.now) × (hash.start + hash.len ≤ length line.now))) }
    requires table_value { sound_if_any table.old ≡ true }
    ensures acted { (place : Lookup) → result ≡ acts_by key.now place (answer_on reading table.old (model.ping_sent clock (said line.now target) (said line.now address) udp tcp (said line.now hash))) (model.ping_sent clock (said line.now target) (said line.now address) udp tcp (said line.now hash)) }
    ensures bytes { table.new ≡ bytes_after reading table.old (model.ping_sent clock (said line.now target) (said line.now address) udp tcp (said line.now hash)) }
{
    let mut node = [0; 1500];
    let k = decode_field(line, target, &mut node);
    let mut to = [0; 1500];
    let a = decode_field(line, address, &mut to);
    let mut bytes = [0; 1500];
    let n = decode_field(line, hash, &mut bytes);
    let number = numbers::answer_number(call_ping_sent::ping_sent_on_sound(
        table,
        MonotonicMillis(clock),
        &node[0..k],
        &to[0..a],
        udp,
        tcp,
        &bytes[0..n],
    ));
    if octets::same_bytes(key, &node[0..k]) {
        return pinged(number);
    }
    idle(number)
}

// `sweep`: milliseconds.
fn sweep(table: &mut [u8], place: Lookup, clock: u64) -> Acted
    requires { sound_if_any table.old ≡ true }
    ensures acted { result ≡ swept_acts place (answer_on reading table.old (model.sweep clock)) clock }
    ensures bytes { table.new ≡ bytes_after reading table.old (model.sweep clock) }
{
    let time = MonotonicMillis(clock);
    let number = numbers::answer_number(call_sweep::sweep_on_sound(table, time));
    Acted {
        number,
        named: false,
        moves: false,
        pings: false,
        overdue: place.is_late(time),
        looks: true,
    }
}

// What a line did, and the replay after it.
#[derive(Clone, Copy)]
pub struct Taken {
    pub replay: Replay,
    pub acted: Acted,
}

// Takes a line, without its 0A, as a replay does; its call tests no table either.
pub fn act(memory: &mut [u8], key: &[u8], replay: Replay, place: Lookup, line: &[u8]) -> Taken
    requires { (46304 ≤ length memory.old) × ((replay.count ≤ 16) × Reached (state_of replay memory.old)) }
    ensures { ActedLine key.now replay place (whole line.now) memory.old result memory.new }
{
    let size = replay.size();
    let said = log_line::read_line(line);
    let acted = match said {
        Line::Own {
            buckets,
            key: owner,
        } => {
            let made = log_own::take_own(memory, replay, line, buckets, owner);
            return Taken {
                replay: made.replay,
                acted: idle(made.number),
            };
        }
        Line::Rx {
            now,
            unix,
            address,
            port,
            signer,
            datagram,
        } => rx(
            &mut memory[0..size],
            key,
            place,
            line,
            now,
            unix,
            address,
            port,
            signer,
            datagram,
        ),
        Line::Sent {
            now,
            key: target,
            address,
            udp,
            tcp,
            hash,
        } => sent(
            &mut memory[0..size],
            key,
            line,
            now,
            target,
            address,
            udp,
            tcp,
            hash,
        ),
        Line::Sweep { now } => sweep(&mut memory[0..size], place, now),
        Line::Unreadable => idle(numbers::UNREADABLE),
    };
    Taken { replay, acted }
}

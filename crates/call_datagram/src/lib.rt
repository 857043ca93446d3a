// The datagram call on a table in lent bytes, for any bytes.
#![tactic(auto)]

ghost use Rattle.std.specs.Prelude.{◌≡◌, true, ◌≤◌};
ghost use Rattle.table_model.specs.Layout.{clock_of};
ghost use Rattle.call_datagram.specs.Steps.{delivered, after_delivery};
ghost use Rattle.call_history.specs.Model as model;
ghost use Rattle.call_model.specs.Reading.{reading};
ghost use Rattle.call_model.specs.Calls.{bytes_after};
ghost use Rattle.call_model.specs.IfAny.{sound_if_any};
ghost use Rattle.call_touched.specs.Steps.{reached, SoundAt};
ghost use Rattle.call_answer.specs.Answer.{plain};
ghost use Rattle.call_datagram.specs.Received.{received};

use call_answer::{Outcome, Received};
use call_judge::Judged;
use call_touched::Reach;
use node::{MonotonicMillis, UnixSeconds};
use packet::Packet;

// An accepted packet reaches the bucket in its sender's slot: answers 13 to 15, or 0 and the bucket and the clock are written.
fn deliver(
    table: &mut [u8],
    slot: usize,
    packet: Packet,
    clock: MonotonicMillis,
    address: &[u8],
    port: u16,
    signer: &[u8],
    datagram: &[u8],
) -> Received
    requires { SoundAt table.old slot × (clock_of table.old ≤ clock.0) }
    ensures value { result ≡ delivered table.old slot clock.0 address.now port signer.now datagram.now packet }
    ensures table_after { table.new ≡ after_delivery table.old slot clock.0 address.now port signer.now datagram.now packet }
{
    let b = call_touched::bucket_in(table, slot);
    let l = bucket_lookup::look_up(b, signer);
    let reply = call_packet::on_packet(b, l, packet, datagram, clock, address, port, signer);
    let answer = reply.answer;
    if reply.number != 0 {
        return answer;
    }
    let after = reply.after;
    call_touched::put(table, slot, after, clock);
    answer
}

// A datagram came whose signer's key leads to `reach`.
fn datagram_at(
    table: &mut [u8],
    reach: Reach,
    clock: MonotonicMillis,
    unix: UnixSeconds,
    address: &[u8],
    port: u16,
    signer: &[u8],
    datagram: &[u8],
) -> Received
    requires { reach ≡ reached table.old signer.now }
    ensures value { result ≡ received table.old clock.0 unix.0 address.now port signer.now datagram.now }
    ensures table_after { table.new ≡ bytes_after reading table.old (model.datagram clock.0 unix.0 address.now port signer.now datagram.now) }
{
    match call_judge::judge(table, reach, clock, unix, address, datagram) {
        Judged::Refused(n) => call_answer::plain(Outcome::Refused(n)),
        Judged::Passed(slot, packet) => deliver(
            table, slot, packet, clock, address, port, signer, datagram,
        ),
    }
}

// A datagram came from the sender's address and UDP port, signed with this key; the key is empty where the signature recovers none.
pub fn datagram_on(
    table: &mut [u8],
    clock: MonotonicMillis,
    unix: UnixSeconds,
    address: &[u8],
    port: u16,
    signer: &[u8],
    datagram: &[u8],
) -> Received
    ensures value { result ≡ received table.old clock.0 unix.0 address.now port signer.now datagram.now }
    ensures table_after { table.new ≡ bytes_after reading table.old (model.datagram clock.0 unix.0 address.now port signer.now datagram.now) }
{
    let reach = call_touched::reached_by(table, signer);
    datagram_at(table, reach, clock, unix, address, port, signer, datagram)
}

// The same on no bytes or on a sound table, where nothing is left to test.
pub fn datagram_on_sound(
    table: &mut [u8],
    clock: MonotonicMillis,
    unix: UnixSeconds,
    address: &[u8],
    port: u16,
    signer: &[u8],
    datagram: &[u8],
) -> Received
    requires { sound_if_any table.old ≡ true }
    ensures value { result ≡ received table.old clock.0 unix.0 address.now port signer.now datagram.now }
    ensures table_after { table.new ≡ bytes_after reading table.old (model.datagram clock.0 unix.0 address.now port signer.now datagram.now) }
{
    let reach = call_touched::reached_in(table, signer);
    datagram_at(table, reach, clock, unix, address, port, signer, datagram)
}

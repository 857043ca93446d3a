// The ping-sent call on a table in lent bytes, for any bytes.
#![tactic(auto)]

ghost use Rattle.std.specs.Prelude.{◌≡◌, true, ◌≤◌, length};
ghost use Rattle.numbers.specs.Numbers.{answer_number};
ghost use Rattle.octets.specs.Octets.{Bytes};
ghost use Rattle.lists.specs.Lists.{first};
ghost use Rattle.table_model.specs.Layout.{clock_of};
ghost use Rattle.bucket.specs.Steps.{contents, InBounds};
ghost use Rattle.bucket_lookup.specs.Steps.{LooksUp};
ghost use Rattle.call_history.specs.Model as model;
ghost use Rattle.call_model.specs.Calls.{answer_on, bytes_after};
ghost use Rattle.call_model.specs.IfAny.{sound_if_any};
ghost use Rattle.call_model.specs.Reading.{reading};
ghost use Rattle.call_touched.specs.Placed.{placed};
ghost use Rattle.call_touched.specs.Steps.{reached, HasHeader, SoundAt};
ghost use Rattle.call_history.specs.Model.{held_refusals};
ghost use Rattle.call_ping_sent.specs.Steps.{placed_at, placed_on, ping_sent_tests, note_number, after_note};

use bucket::Bucket;
use bucket_lookup::Lookup;
use call_touched::Reach;
use node::MonotonicMillis;
use numbers::Refusal;
use table::Touched;

// Refuses a ping that was sent with 2 to 7.
fn ping_number(
    table: &[u8],
    clock: MonotonicMillis,
    hash: &[u8],
    touched: Touched,
    address: &[u8],
) -> Result<(), Refusal>
    requires { 512 ≤ length table.now }
    ensures { answer_number result ≡ first (ping_sent_tests (clock_of table.now) clock.0 hash.now touched address.now) }
{
    let last = table::clock(table);
    if clock.0 < last.0 {
        return Err(Refusal::ClockBack);
    }
    if hash.len() != 32 {
        return Err(Refusal::WrongHash);
    }
    call_touched::key_number(touched, address)
}

// The slot of the node's bucket, or refuses a ping that was sent with 2 to 12.
fn place_at(
    table: &[u8],
    clock: MonotonicMillis,
    hash: &[u8],
    touched: Touched,
    address: &[u8],
) -> Result<usize, Refusal>
    requires { 512 ≤ length table.now }
    ensures { placed result ≡ placed_at (clock_of table.now) clock.0 hash.now touched address.now }
{
    ping_number(table, clock, hash, touched, address)?;
    call_touched::kept_place(touched)
}

// The slot of the bucket of the node whose key leads to `reach`, or refuses a ping that was sent to it with 1 to 12.
fn place(
    table: &[u8],
    reach: Reach,
    clock: MonotonicMillis,
    address: &[u8],
    hash: &[u8],
) -> Result<usize, Refusal>
    requires { HasHeader table.now reach }
    ensures { placed result ≡ placed_on (clock_of table.now) clock.0 hash.now reach address.now }
{
    match reach {
        Reach::Unsound => Err(Refusal::Unsound),
        Reach::At(touched) => place_at(table, clock, hash, touched, address),
    }
}

// Refuses a ping that was sent to the node with 16 to 18.
fn ping_sent_number(b: Bucket, l: Lookup, address: &[u8], udp: u16) -> Result<(), Refusal>
    requires { InBounds b }
    ensures { (key : Bytes) → LooksUp key (contents b) l → answer_number result ≡ first (held_refusals address.now udp key (contents b)) }
{
    if l.held_elsewhere(address, udp) {
        return Err(Refusal::HeldElsewhere);
    }
    if l.ping_out() {
        return Err(Refusal::PingOut);
    }
    let replacements = b.replacements;
    if l.no_room(replacements.len) {
        return Err(Refusal::LineFull);
    }
    Ok(())
}

// A ping that was sent is noted in the bucket in its node's slot, and the bucket and the clock are written, unless it is refused with 16 to 18.
fn note(
    table: &mut [u8],
    slot: usize,
    clock: MonotonicMillis,
    key: &[u8],
    address: &[u8],
    udp: u16,
    tcp: u16,
    hash: &[u8],
) -> Result<(), Refusal>
    requires { SoundAt table.old slot × ((length key.now ≡ 64) × ((length address.now ≤ 16) × (length hash.now ≡ 32))) }
    ensures value { answer_number result ≡ note_number table.old slot address.now udp key.now }
    ensures table_after { table.new ≡ after_note table.old slot clock.0 key.now address.now udp tcp hash.now }
{
    let b = call_touched::bucket_in(table, slot);
    let l = bucket_lookup::look_up(b, key);
    ping_sent_number(b, l, address, udp)?;
    let pinged = bucket_rules::ping_sent(b, l, key, address, udp, tcp, hash, clock);
    call_touched::put(table, slot, pinged, clock);
    Ok(())
}

// A ping went out to the node whose key leads to `reach`.
fn ping_sent_at(
    table: &mut [u8],
    reach: Reach,
    clock: MonotonicMillis,
    key: &[u8],
    address: &[u8],
    udp: u16,
    tcp: u16,
    hash: &[u8],
) -> Result<(), Refusal>
    requires { reach ≡ reached table.old key.now }
    ensures value { answer_number result ≡ answer_on reading table.old (model.ping_sent clock.0 key.now address.now udp tcp hash.now) }
    ensures table_after { table.new ≡ bytes_after reading table.old (model.ping_sent clock.0 key.now address.now udp tcp hash.now) }
{
    let slot = place(table, reach, clock, address, hash)?;
    note(table, slot, clock, key, address, udp, tcp, hash)
}

// A ping with this hash went out to a node.
pub fn ping_sent_on(
    table: &mut [u8],
    clock: MonotonicMillis,
    key: &[u8],
    address: &[u8],
    udp: u16,
    tcp: u16,
    hash: &[u8],
) -> Result<(), Refusal>
    ensures value { answer_number result ≡ answer_on reading table.old (model.ping_sent clock.0 key.now address.now udp tcp hash.now) }
    ensures table_after { table.new ≡ bytes_after reading table.old (model.ping_sent clock.0 key.now address.now udp tcp hash.now) }
{
    let reach = call_touched::reached_by(table, key);
    ping_sent_at(table, reach, clock, key, address, udp, tcp, hash)
}

// The same on no bytes or on a sound table, where nothing is left to test.
pub fn ping_sent_on_sound(
    table: &mut [u8],
    clock: MonotonicMillis,
    key: &[u8],
    address: &[u8],
    udp: u16,
    tcp: u16,
    hash: &[u8],
) -> Result<(), Refusal>
    requires { sound_if_any table.old ≡ true }
    ensures value { answer_number result ≡ answer_on reading table.old (model.ping_sent clock.0 key.now address.now udp tcp hash.now) }
    ensures table_after { table.new ≡ bytes_after reading table.old (model.ping_sent clock.0 key.now address.now udp tcp hash.now) }
{
    let reach = call_touched::reached_in(table, key);
    ping_sent_at(table, reach, clock, key, address, udp, tcp, hash)
}

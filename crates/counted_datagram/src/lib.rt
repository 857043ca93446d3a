// The datagram call of the public library: it works on the lent table, counts its answer number in the lent counters, and answers.
#![tactic(auto)]

ghost use Rattle.std.specs.Prelude.{◌≡◌};
ghost use Rattle.call_history.specs.Model as model;
ghost use Rattle.call_model.specs.Calls.{bytes_after};
ghost use Rattle.call_model.specs.Reading.{reading};
ghost use Rattle.call_answer.specs.Answer.{number_of};
ghost use Rattle.call_datagram.specs.Received.{received};
ghost use Rattle.counters.specs.Counters.{raised};

use call_answer::Received;
use counters::Counters;
use node::{MonotonicMillis, UnixSeconds};

// A datagram came from the sender's address and UDP port, signed with this key; the key is empty where the signature recovers none.
pub fn datagram(
    counters: &mut Counters,
    table: &mut [u8],
    clock: MonotonicMillis,
    unix: UnixSeconds,
    address: &[u8],
    port: u16,
    signer: &[u8],
    datagram: &[u8],
) -> Received
    ensures value { result ≡ received table.old clock.0 unix.0 address.now port signer.now datagram.now }
    ensures table_after { table.new ≡ bytes_after reading table.old (model.datagram clock.0 unix.0 address.now port signer.now datagram.now) }
    ensures counters_after { counters.new ≡ raised counters.old (number_of result) }
{
    let answer = call_datagram::datagram_on(table, clock, unix, address, port, signer, datagram);
    counters::count(counters, call_answer::number(answer));
    answer
}

// The same call with the counters by value, for callers inside the repository.

// The answer to a datagram, and the counters after it.
#[derive(Clone, Copy)]
pub struct Counted {
    pub received: Received,
    pub counters: Counters,
}

pub fn datagram_with(
    counters: Counters,
    table: &mut [u8],
    clock: MonotonicMillis,
    unix: UnixSeconds,
    address: &[u8],
    port: u16,
    signer: &[u8],
    datagram: &[u8],
) -> Counted
    ensures received_value { result.received ≡ received table.old clock.0 unix.0 address.now port signer.now datagram.now }
    ensures table_after { table.new ≡ bytes_after reading table.old (model.datagram clock.0 unix.0 address.now port signer.now datagram.now) }
    ensures counters_value { result.counters ≡ raised counters (number_of result.received) }
{
    let mut after = counters;
    let received = crate::datagram(
        &mut after, table, clock, unix, address, port, signer, datagram,
    );
    Counted {
        received,
        counters: after,
    }
}

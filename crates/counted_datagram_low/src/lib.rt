// The datagram call of the public library by a reading of 32 bits: it works on the lent table, counts its answer number in the lent counters, and
// answers.
#![tactic(auto)]

ghost use Rattle.std.specs.Prelude.{◌≡◌};
ghost use Rattle.call_history.specs.Model as model;
ghost use Rattle.call_answer.specs.Answer.{number_of};
ghost use Rattle.call_low.specs.Got.{bytes_low, received_low};
ghost use Rattle.counters.specs.Counters.{raised};

use call_answer::Received;
use clock32::LowMillis;
use counters::Counters;
use node::UnixSeconds;

// A datagram came from the sender's address and UDP port, signed with this key; the key is empty where the signature recovers none.
pub fn datagram_low(
    counters: &mut Counters,
    table: &mut [u8],
    reading: LowMillis,
    unix: UnixSeconds,
    address: &[u8],
    port: u16,
    signer: &[u8],
    datagram: &[u8],
) -> Received
    ensures value { result ≡ received_low table.old reading.0 unix.0 address.now port signer.now datagram.now }
    ensures table_after { table.new ≡ bytes_low table.old (model.datagram reading.0 unix.0 address.now port signer.now datagram.now) }
    ensures counters_after { counters.new ≡ raised counters.old (number_of result) }
{
    let answer = call_low::datagram_low_on(table, reading, unix, address, port, signer, datagram);
    counters::count(counters, call_answer::number(answer));
    answer
}

// The burst of the public library: the datagrams are handed over one after the other on the lent table, and each one's number is counted in
// the lent counters.
#![tactic(auto)]

ghost use Rattle.std.specs.Prelude.{◌≡◌, length};
ghost use Rattle.numbers.specs.Numbers.{answer_number};
ghost use Rattle.counters.specs.History.{counted};
ghost use Rattle.call_burst_lists.specs.Lists.{burst_of};
ghost use Rattle.call_burst.specs.Burst.{burst_number, numbers_of, table_after, list_after};

use counters::{CountedNumber, Counters};
use numbers::Refusal;

// The counters after calls that gave these answer numbers, in order.
pub fn raise_all(counters: Counters, numbers: &[u8]) -> Counters
    ensures { result ≡ counted counters numbers.now }
{
    let mut raised = counters;
    for number in numbers {
        raised = counters::raise(raised, *number);
    }
    raised
}

// Up to 32 datagrams that came, end to end in `buffer` by `lengths`; for each a signer's key of 64 bytes, all zeros where the signature
// recovers none, an address of 17 (its length, and 16 bytes), a UDP port and the two clocks. Each one's answer number goes into `numbers` and
// is counted. Where the lists don't fit together the burst is refused with 28 before anything is handled. Its own answer is not counted.
pub fn burst(
    counters: &mut Counters,
    table: &mut [u8],
    numbers: &mut [u8],
    buffer: &[u8],
    lengths: &[usize],
    signers: &[u8],
    addresses: &[u8],
    ports: &[u16],
    millis: &[u64],
    unix: &[u64],
) -> Result<(), Refusal>
    ensures value { answer_number result ≡ burst_number (burst_of buffer.now lengths.now signers.now addresses.now ports.now millis.now unix.now) (length numbers.old) }
    ensures table_after { table.new ≡ table_after table.old (burst_of buffer.now lengths.now signers.now addresses.now ports.now millis.now unix.now) (length numbers.old) }
    ensures numbers_after { numbers.new ≡ list_after table.old (burst_of buffer.now lengths.now signers.now addresses.now ports.now millis.now unix.now) numbers.old }
    ensures counters_after { counters.new ≡ counted counters.old (numbers_of table.old (burst_of buffer.now lengths.now signers.now addresses.now ports.now millis.now unix.now) (length numbers.old)) }
{
    call_burst::burst_on(
        table, numbers, buffer, lengths, signers, addresses, ports, millis, unix,
    )?;
    *counters = raise_all(*counters, numbers);
    Ok(())
}

// A burst with the counters by value, for callers inside the repository.
pub fn burst_with(
    counters: Counters,
    table: &mut [u8],
    numbers: &mut [u8],
    buffer: &[u8],
    lengths: &[usize],
    signers: &[u8],
    addresses: &[u8],
    ports: &[u16],
    millis: &[u64],
    unix: &[u64],
) -> CountedNumber
    ensures number_value { result.number ≡ burst_number (burst_of buffer.now lengths.now signers.now addresses.now ports.now millis.now unix.now) (length numbers.old) }
    ensures table_after { table.new ≡ table_after table.old (burst_of buffer.now lengths.now signers.now addresses.now ports.now millis.now unix.now) (length numbers.old) }
    ensures numbers_after { numbers.new ≡ list_after table.old (burst_of buffer.now lengths.now signers.now addresses.now ports.now millis.now unix.now) numbers.old }
    ensures counters_value { result.counters ≡ counted counters (numbers_of table.old (burst_of buffer.now lengths.now signers.now addresses.now ports.now millis.now unix.now) (length numbers.old)) }
{
    let mut after = counters;
    let answer = burst(
        &mut after, table, numbers, buffer, lengths, signers, addresses, ports, millis, unix,
    );
    CountedNumber {
        number: numbers::answer_number(answer),
        counters: after,
    }
}

// The burst of the public library with readings of 32 bits: the datagrams are handed over one after the other on the lent table, each one's reading
// widened by the table's clock at its turn, and each one's number is counted in the lent counters.
#![tactic(auto)]

ghost use Rattle.std.specs.Prelude.{◌≡◌, length};
ghost use Rattle.numbers.specs.Numbers.{answer_number};
ghost use Rattle.counters.specs.History.{counted};
ghost use Rattle.call_burst_lists.specs.Lists.{burst_of};
ghost use Rattle.call_burst.specs.Burst.{burst_number, low_numbers_of, low_table_after, low_list_after};

use counters::{CountedNumber, Counters};
use numbers::Refusal;

// Up to 32 datagrams that came, end to end in `buffer` by `lengths`; for each a signer's key of 64 bytes, all zeros where the signature
// recovers none, an address of 17 (its length, and 16 bytes), a UDP port, a reading and the Unix time. Each one's answer number goes into `numbers` and
// is counted. Where the lists don't fit together the burst is refused with 28 before anything is handled. Its own answer is not counted.
pub fn burst_low(
    counters: &mut Counters,
    table: &mut [u8],
    numbers: &mut [u8],
    buffer: &[u8],
    lengths: &[usize],
    signers: &[u8],
    addresses: &[u8],
    ports: &[u16],
    readings: &[u32],
    unix: &[u64],
) -> Result<(), Refusal>
    ensures value { answer_number result ≡ burst_number (burst_of buffer.now lengths.now signers.now addresses.now ports.now readings.now unix.now) (length numbers.old) }
    ensures table_after { table.new ≡ low_table_after table.old (burst_of buffer.now lengths.now signers.now addresses.now ports.now readings.now unix.now) (length numbers.old) }
    ensures numbers_after { numbers.new ≡ low_list_after table.old (burst_of buffer.now lengths.now signers.now addresses.now ports.now readings.now unix.now) numbers.old }
    ensures counters_after { counters.new ≡ counted counters.old (low_numbers_of table.old (burst_of buffer.now lengths.now signers.now addresses.now ports.now readings.now unix.now) (length numbers.old)) }
{
    call_burst::burst_low_on(
        table, numbers, buffer, lengths, signers, addresses, ports, readings, unix,
    )?;
    *counters = counted_burst::raise_all(*counters, numbers);
    Ok(())
}

// A burst with the counters by value, for callers inside the repository.
pub fn burst_low_with(
    counters: Counters,
    table: &mut [u8],
    numbers: &mut [u8],
    buffer: &[u8],
    lengths: &[usize],
    signers: &[u8],
    addresses: &[u8],
    ports: &[u16],
    readings: &[u32],
    unix: &[u64],
) -> CountedNumber
    ensures number_value { result.number ≡ burst_number (burst_of buffer.now lengths.now signers.now addresses.now ports.now readings.now unix.now) (length numbers.old) }
    ensures table_after { table.new ≡ low_table_after table.old (burst_of buffer.now lengths.now signers.now addresses.now ports.now readings.now unix.now) (length numbers.old) }
    ensures numbers_after { numbers.new ≡ low_list_after table.old (burst_of buffer.now lengths.now signers.now addresses.now ports.now readings.now unix.now) numbers.old }
    ensures counters_value { result.counters ≡ counted counters (low_numbers_of table.old (burst_of buffer.now lengths.now signers.now addresses.now ports.now readings.now unix.now) (length numbers.old)) }
{
    let mut after = counters;
    let answer = burst_low(
        &mut after, table, numbers, buffer, lengths, signers, addresses, ports, readings, unix,
    );
    CountedNumber {
        number: numbers::answer_number(answer),
        counters: after,
    }
}

// A burst: up to 32 datagrams on a table in lent bytes, one after the other. Their numbers go into a lent list.
#![tactic(auto)]

ghost use Rattle.std.specs.Prelude.{◌≡◌, true, length};
ghost use Rattle.numbers.specs.Numbers.{answer_number};
ghost use Rattle.call_burst_lists.specs.Lists.{burst_of, is_whole};
ghost use Rattle.call_burst_lists.specs.Times.{lent_by};
ghost use Rattle.call_burst_step.specs.Steps.{answer_by, bytes_by};
ghost use Rattle.call_history.specs.Chain.{answers_on, bytes_after_all};
ghost use Rattle.call_burst.specs.Burst.{burst_number, calls_from, table_after, list_after, low_table_after, low_list_after};
ghost use Rattle.call_burst.specs.Steps.{table_by, list_by};

use numbers::Refusal;

// Hands over the datagrams of a whole burst, in order.
fn hand_over_all(
    table: &mut [u8],
    numbers: &mut [u8],
    buffer: &[u8],
    lengths: &[usize],
    signers: &[u8],
    addresses: &[u8],
    ports: &[u16],
    millis: &[u64],
    readings: &[u32],
    unix: &[u64],
    low: bool,
)
    requires { is_whole (lent_by low buffer.now lengths.now signers.now addresses.now ports.now millis.now readings.now unix.now) (length numbers.old) ≡ true }
    ensures table_after { table.new ≡ bytes_after_all (answer_by low) (bytes_by low) table.old (calls_from (lent_by low buffer.now lengths.now signers.now addresses.now ports.now millis.now readings.now unix.now) 0 0 (length lengths.now)) }
    ensures numbers_after { numbers.new ≡ answers_on (answer_by low) (bytes_by low) table.old (calls_from (lent_by low buffer.now lengths.now signers.now addresses.now ports.now millis.now readings.now unix.now) 0 0 (length lengths.now)) }
{
    let mut at = 0;
    for (i, len) in lengths.iter().enumerate() {
        call_burst_step::hand_over(
            table, numbers, buffer, lengths, signers, addresses, ports, millis, readings, unix, i,
            at, low,
        );
        at += *len;
    }
}

// One of the two bursts: with full milliseconds, or where `low` with readings; the other list is not looked at.
fn burst_by(
    table: &mut [u8],
    numbers: &mut [u8],
    buffer: &[u8],
    lengths: &[usize],
    signers: &[u8],
    addresses: &[u8],
    ports: &[u16],
    millis: &[u64],
    readings: &[u32],
    unix: &[u64],
    low: bool,
) -> Result<(), Refusal>
    ensures value { answer_number result ≡ burst_number (lent_by low buffer.now lengths.now signers.now addresses.now ports.now millis.now readings.now unix.now) (length numbers.old) }
    ensures table_after { table.new ≡ table_by low table.old (lent_by low buffer.now lengths.now signers.now addresses.now ports.now millis.now readings.now unix.now) (length numbers.old) }
    ensures numbers_after { numbers.new ≡ list_by low table.old (lent_by low buffer.now lengths.now signers.now addresses.now ports.now millis.now readings.now unix.now) numbers.old }
{
    let room = numbers.len();
    if !call_burst_lists::is_whole(
        buffer, lengths, signers, addresses, ports, millis, readings, unix, room, low,
    ) {
        return Err(Refusal::NotWhole);
    }
    hand_over_all(
        table, numbers, buffer, lengths, signers, addresses, ports, millis, readings, unix, low,
    );
    Ok(())
}

// The datagrams of a burst handed over one after the other, each one's number into the lent list; or refuses with 28 before anything is
// handled, and then nothing is written.
pub fn burst_on(
    table: &mut [u8],
    numbers: &mut [u8],
    buffer: &[u8],
    lengths: &[usize],
    signers: &[u8],
    addresses: &[u8],
    ports: &[u16],
    millis: &[u64],
    unix: &[u64],
) -> Result<(), Refusal>
    ensures value { answer_number result ≡ burst_number (burst_of buffer.now lengths.now signers.now addresses.now ports.now millis.now unix.now) (length numbers.old) }
    ensures table_after { table.new ≡ table_after table.old (burst_of buffer.now lengths.now signers.now addresses.now ports.now millis.now unix.now) (length numbers.old) }
    ensures numbers_after { numbers.new ≡ list_after table.old (burst_of buffer.now lengths.now signers.now addresses.now ports.now millis.now unix.now) numbers.old }
{
    let none = [0u32; 1];
    burst_by(
        table, numbers, buffer, lengths, signers, addresses, ports, millis, &none, unix, false,
    )
}

// The same with readings of 32 bits: each datagram's is widened by the table's clock at its turn.
pub fn burst_low_on(
    table: &mut [u8],
    numbers: &mut [u8],
    buffer: &[u8],
    lengths: &[usize],
    signers: &[u8],
    addresses: &[u8],
    ports: &[u16],
    readings: &[u32],
    unix: &[u64],
) -> Result<(), Refusal>
    ensures value { answer_number result ≡ burst_number (burst_of buffer.now lengths.now signers.now addresses.now ports.now readings.now unix.now) (length numbers.old) }
    ensures table_after { table.new ≡ low_table_after table.old (burst_of buffer.now lengths.now signers.now addresses.now ports.now readings.now unix.now) (length numbers.old) }
    ensures numbers_after { numbers.new ≡ low_list_after table.old (burst_of buffer.now lengths.now signers.now addresses.now ports.now readings.now unix.now) numbers.old }
{
    let none = [0u64; 1];
    burst_by(
        table, numbers, buffer, lengths, signers, addresses, ports, &none, readings, unix, true,
    )
}

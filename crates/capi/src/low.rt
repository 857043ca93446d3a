// The table's calls by a reading of 32 bits: the box's counter of milliseconds, which rolls over.
ghost use Rattle.std.specs.Prelude.{◌≡◌, length};
ghost use Rattle.call_history.specs.Model as model;
ghost use Rattle.counters.specs.Counters.{raised};
ghost use Rattle.counters.specs.History.{counted};
ghost use Rattle.call_low.specs.Got.{full_clock, full_clock_number, answer_low, bytes_low, received_low};
ghost use Rattle.call_burst_lists.specs.Lists.{burst_of};
ghost use Rattle.call_burst.specs.Burst.{burst_number, low_numbers_of, low_table_after, low_list_after};
ghost use Rattle.capi_codes.specs.Codes.{number_in, received_code};
ghost use Rattle.capi_calls.specs.Told.{told_clock};

use clock32::LowMillis;
use counters::Counters;

// The full clock of a reading: the table's clock and the difference of the reading and its low 32 bits, taken round the rollover. The answer
// number: 0, 1 if the header isn't sound, or 2 if the difference is 2^31 or more or the sum is past 64 bits; then nothing is written.
#[unsafe(no_mangle)]
pub extern "C" fn coghammer_full_clock(table: &[u8], reading: u32, clock: &mut [u64; 1]) -> u8
    ensures value { result ≡ full_clock_number (full_clock table.now reading) }
    ensures clock_after { clock.new ≡ told_clock (full_clock table.now reading) clock.old }
{
    let full = discv4::full_clock(table, LowMillis(reading));
    capi_calls::tell_clock(clock, full)
}

// `coghammer_datagram` by a reading.
#[unsafe(no_mangle)]
pub extern "C" fn coghammer_datagram_low(
    counters: &mut Counters,
    table: &mut [u8],
    reading: u32,
    unix: u64,
    address: &[u8],
    port: u16,
    signer: &[u8],
    datagram: &[u8],
) -> u32
    ensures value { result ≡ received_code (received_low table.old reading unix address.now port signer.now datagram.now) }
    ensures table_after { table.new ≡ bytes_low table.old (model.datagram reading unix address.now port signer.now datagram.now) }
    ensures counters_after { counters.new ≡ raised counters.old (number_in result) }
{
    let answer = capi_calls::datagram_low_on(table, reading, unix, address, port, signer, datagram);
    counters::count(counters, capi_codes::number_in(answer));
    answer
}

// `coghammer_ping_sent` by a reading.
#[unsafe(no_mangle)]
pub extern "C" fn coghammer_ping_sent_low(
    counters: &mut Counters,
    table: &mut [u8],
    reading: u32,
    key: &[u8],
    address: &[u8],
    udp: u16,
    tcp: u16,
    hash: &[u8],
) -> u8
    ensures value { result ≡ answer_low table.old (model.ping_sent reading key.now address.now udp tcp hash.now) }
    ensures table_after { table.new ≡ bytes_low table.old (model.ping_sent reading key.now address.now udp tcp hash.now) }
    ensures counters_after { counters.new ≡ raised counters.old result }
{
    let answer = capi_calls::ping_sent_low_on(table, reading, key, address, udp, tcp, hash);
    counters::count(counters, answer);
    answer
}

// `coghammer_sweep` by a reading.
#[unsafe(no_mangle)]
pub extern "C" fn coghammer_sweep_low(counters: &mut Counters, table: &mut [u8], reading: u32) -> u8
    ensures value { result ≡ answer_low table.old (model.sweep reading) }
    ensures table_after { table.new ≡ bytes_low table.old (model.sweep reading) }
    ensures counters_after { counters.new ≡ raised counters.old result }
{
    let answer = capi_calls::sweep_low_on(table, reading);
    counters::count(counters, answer);
    answer
}

// `coghammer_burst` by readings, each widened by the table's clock at its datagram's turn.
#[unsafe(no_mangle)]
pub extern "C" fn coghammer_burst_low(
    counters: &mut Counters,
    table: &mut [u8],
    numbers: &mut [u8],
    buffer: &[u8],
    lengths: &[usize],
    signers: &[u8],
    addresses: &[u8],
    ports: &[u16],
    readings: &[u32],
    unix: &[u64],
) -> u8
    ensures value { result ≡ burst_number (burst_of buffer.now lengths.now signers.now addresses.now ports.now readings.now unix.now) (length numbers.old) }
    ensures table_after { table.new ≡ low_table_after table.old (burst_of buffer.now lengths.now signers.now addresses.now ports.now readings.now unix.now) (length numbers.old) }
    ensures numbers_after { numbers.new ≡ low_list_after table.old (burst_of buffer.now lengths.now signers.now addresses.now ports.now readings.now unix.now) numbers.old }
    ensures counters_after { counters.new ≡ counted counters.old (low_numbers_of table.old (burst_of buffer.now lengths.now signers.now addresses.now ports.now readings.now unix.now) (length numbers.old)) }
{
    let done = counted_burst_low::burst_low_with(
        *counters, table, numbers, buffer, lengths, signers, addresses, ports, readings, unix,
    );
    *counters = done.counters;
    done.number
}

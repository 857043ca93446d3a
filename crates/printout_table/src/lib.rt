// What a lent table tells of itself: its numbers, and its printout as text, written into lent bytes.
#![tactic(auto)]

ghost use Rattle.std.specs.Prelude.{◌≡◌};
ghost use Rattle.printout_table.specs.Told.{no_state, state_of, printed, printed_in};

use node::MonotonicMillis;

// The answer number, and the numbers of the printout's first row: the clock, how many buckets there are, and how many entries and
// replacements they hold; zeros where the number isn't 0.
#[derive(Clone, Copy)]
pub struct TableState {
    pub number: u8,
    pub clock: MonotonicMillis,
    pub buckets: usize,
    pub entries: usize,
    pub replacements: usize,
}

// The answer number of a printout, and its size.
#[derive(Clone, Copy)]
pub struct Printed {
    pub number: u8,
    pub size: usize,
}

fn no_state(number: u8) -> TableState
    ensures { result ≡ no_state number }
{
    TableState {
        number,
        clock: MonotonicMillis(0),
        buckets: 0,
        entries: 0,
        replacements: 0,
    }
}

// The clock of a table, its buckets, its entries and its replacements. The answer number: 0, or 1 where the table isn't sound.
pub fn table_state(table: &[u8]) -> TableState
    ensures { result ≡ state_of table.now }
{
    if !table_sound::sound(table) {
        return no_state(numbers::UNSOUND);
    }
    let clock = table::clock(table);
    let buckets = table::bucket_count(table);
    let held = printout::held_in(table);
    TableState {
        number: numbers::DONE,
        clock,
        buckets,
        entries: held.entries,
        replacements: held.replacements,
    }
}

// Writes the printout of a table to the front of the lent bytes. The answer number: 0; or 1 where the table isn't sound, else 19 where the
// bytes are fewer than a table of so many buckets can need, and then nothing is written.
pub fn print_table(out: &mut [u8], table: &[u8]) -> Printed
    ensures value { result ≡ printed out.old table.now }
    ensures out_after { out.new ≡ printed_in out.old table.now }
{
    if !table_sound::sound(table) {
        return Printed {
            number: numbers::UNSOUND,
            size: 0,
        };
    }
    let buckets = table::bucket_count(table);
    if out.len() < printout::room_for(buckets) {
        return Printed {
            number: numbers::SHORT_ROOM,
            size: 0,
        };
    }
    let size = printout::put_table(out, table);
    Printed {
        number: numbers::DONE,
        size,
    }
}

// The first line of a log, `own`: a fresh table in the first bytes of a lent memory, and the answer written into lent bytes.
#![tactic(auto)]

ghost use Rattle.std.specs.Prelude.{◌≡◌, cond, ◌+◌, ◌≤◌, eqb, length};
ghost use Rattle.numbers.specs.Numbers.{answer_number};
ghost use Rattle.octets.specs.Octets.{store};
ghost use Rattle.table.specs.Init.{fresh_table};
ghost use Rattle.log_line.specs.Fields.{said};
ghost use Rattle.log_answer.specs.AnswerRows.{answer_room, number_row};
ghost use Rattle.log_own.specs.OwnLine.{own_number, own_answer, own_after, Taken};
ghost use Rattle.log_state.specs.State.{state_of, Answered};

use bucket::Bucket;
use log_answer::put_number;
use log_line::decode_field;
use log_state::{Replay, Stepped};
use numbers::Refusal;
use packet_span::Span;

// The first `own`: a fresh table. Refused with 1 or 5, no byte is written.
fn make(memory: &mut [u8], key: &[u8], buckets: u64) -> Result<(), Refusal>
    requires { 46304 ≤ length memory.old }
    ensures number { answer_number result ≡ own_number buckets key.now }
    ensures bytes { memory.new ≡ cond (eqb (answer_number result) 0) (store memory.old 0 (fresh_table key.now buckets)) memory.old }
{
    if buckets < 1 || 16 < buckets {
        return Err(Refusal::Unsound);
    }
    let count = buckets as usize;
    let size = table::HEADER_SIZE + count * Bucket::SIZE;
    table::init(&mut memory[0..size], key, count)
}

// What an `own` leaves: the replay after it, and its answer number.
#[derive(Clone, Copy)]
pub struct Made {
    pub replay: Replay,
    pub number: u8,
}

// `own`, buckets, key, and no row is written.
pub fn take_own(memory: &mut [u8], replay: Replay, line: &[u8], buckets: u64, key: Span) -> Made
    requires { (46304 ≤ length memory.old) × ((replay.count ≤ 16) × ((length line.now ≤ 3000) × (key.start + key.len ≤ length line.now))) }
    ensures { Taken (state_of replay memory.old) buckets (said line.now key) memory.old result memory.new }
{
    if replay.owned {
        return Made {
            replay,
            number: numbers::UNREADABLE,
        };
    }
    let mut bytes = [0; 1500];
    let n = decode_field(line, key, &mut bytes);
    let number = numbers::answer_number(make(memory, &bytes[0..n], buckets));
    let count = replay.count;
    if number == 0 {
        return Made {
            replay: Replay {
                owned: true,
                count: buckets as usize,
            },
            number,
        };
    }
    Made {
        replay: Replay { owned: true, count },
        number,
    }
}

// `own`, buckets, key, answered.
pub fn own(
    memory: &mut [u8],
    out: &mut [u8],
    replay: Replay,
    line: &[u8],
    buckets: u64,
    key: Span,
) -> Stepped
    requires { (46304 ≤ length memory.old) × ((answer_room ≤ length out.old) × ((replay.count ≤ 16) × ((length line.now ≤ 3000) × (key.start + key.len ≤ length line.now)))) }
    ensures { Answered (own_after (state_of replay memory.old) buckets (said line.now key)) (number_row (own_answer (state_of replay memory.old) buckets (said line.now key))) memory.old out.old result memory.new out.new }
{
    let made = take_own(memory, replay, line, buckets, key);
    let len = put_number(out, made.number);
    Stepped {
        replay: made.replay,
        len,
    }
}

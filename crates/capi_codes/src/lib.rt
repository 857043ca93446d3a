// The answers of the C boundary in one number: an answer number in the low byte and a value above it.
#![tactic(auto)]

ghost use Rattle.std.specs.Prelude.{◌≡◌, ◌≤◌, ◌<◌, ◌^◌};
ghost use Rattle.written.specs.Written.{written_size};
ghost use Rattle.capi_codes.specs.Codes as codes;
ghost use Rattle.capi_codes.specs.Codes.{number_in, due_value, standing_value, outcome_code, listed_code, written_code, seq_of};

use call_answer::{Outcome, Standing};
use closest_nodes::Listed;
use written::WriteError;

// The code of an answer number and a value.
pub fn code(number: u8, value: u32) -> u32
    requires { value < 2 ^ 24 }
    ensures { result ≡ codes.code number value }
{
    number as u32 + 256 * value
}

// The answer number of a code.
pub fn number_in(code: u32) -> u8
    ensures { result ≡ number_in code }
{
    (code % 256) as u8
}

fn due_value(due: bool) -> u32
    ensures { (result ≡ due_value due) × (result ≤ 1) }
{
    if due { 1 } else { 0 }
}

fn standing_value(standing: Standing) -> u32
    ensures { (result ≡ standing_value standing) × (result ≤ 3) }
{
    match standing {
        Standing::Tail => 0,
        Standing::TookEntry => 1,
        Standing::Waiting(_) => 2,
        Standing::RangeFull => 3,
    }
}

// The code of an accepted packet.
fn accepted(kind: u32, outcome: u32) -> u32
    requires { (kind ≤ 6) × (outcome ≤ 3) }
    ensures { result ≡ codes.accepted kind outcome }
{
    code(0, kind + 256 * outcome)
}

pub fn outcome_code(outcome: Outcome) -> u32
    ensures { result ≡ outcome_code outcome }
{
    match outcome {
        Outcome::Refused(n) => code(n, 0),
        Outcome::Ping(_, due) => accepted(1, due_value(due)),
        Outcome::Pong(_, standing) => accepted(2, standing_value(standing)),
        Outcome::FindNode(_) => accepted(3, 0),
        Outcome::Neighbors(_) => accepted(4, 0),
        Outcome::EnrRequest(_) => accepted(5, 0),
        Outcome::EnrResponse(_) => accepted(6, 0),
    }
}

pub fn listed_code(listed: Listed) -> u32
    requires { (listed.count < 256) × (listed.distances < 256) }
    ensures { result ≡ listed_code listed }
{
    let count = listed.count as u32;
    let distances = listed.distances as u32;
    code(listed.number, count + 256 * distances)
}

pub fn written_code(written: Result<usize, WriteError>) -> u32
    requires { written_size written < 2 ^ 24 }
    ensures { result ≡ written_code written }
{
    let number = written::written_number(written);
    let size = written::written_size(written);
    code(number, size as u32)
}

pub fn enr_seq_of(present: bool, value: u64) -> Option<u64>
    ensures { result ≡ seq_of present value }
{
    present.then_some(value)
}

// The answer to an `rx` line of a log, as a line of text, written from the start of lent bytes.
#![tactic(auto)]

ghost use Rattle.std.specs.Prelude.{◌≡◌, ◌≤◌, length};
ghost use Rattle.octets.specs.Octets.{store};
ghost use Rattle.log_answer.specs.AnswerRows.{answer_room};
ghost use Rattle.log_received.specs.AnswerLine.{received_row};

use call_answer::{Outcome, Received};
use log_answer::{put_number, put_ping, put_pong, put_word_row};

// The line that answers an `rx`; its length.
pub fn put_received(out: &mut [u8], received: Received) -> usize
    requires { answer_room ≤ length out.old }
    ensures len { result ≡ length (received_row received) }
    ensures bytes { out.new ≡ store out.old 0 (received_row received) }
    ensures size { result ≤ answer_room }
{
    let outcome = received.outcome;
    let head = received.head;
    let key = head.key;
    match outcome {
        Outcome::Refused(n) => put_number(out, n),
        Outcome::Ping(_, due) => put_ping(out, due),
        Outcome::Pong(_, standing) => put_pong(out, standing, key),
        Outcome::FindNode(_) => put_word_row(out, b"find"),
        Outcome::Neighbors(_) => put_word_row(out, b"nodes"),
        Outcome::EnrRequest(_) => put_word_row(out, b"enr"),
        Outcome::EnrResponse(_) => put_word_row(out, b"record"),
    }
}

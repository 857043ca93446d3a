// Rows of an answer to a line of a log, as a line of text, written from the start of lent bytes.
#![tactic(auto)]

ghost use Rattle.std.specs.Prelude.{◌≡◌, [], ◌∷◌, ◌≤◌, length};
ghost use Rattle.octets.specs.Octets.{store};
ghost use Rattle.text.specs.Decimals.{decimal};
ghost use Rattle.text.specs.Rows.{row};
ghost use Rattle.log_answer.specs.AnswerRows.{answer_room, number_row, ping_fields, pong_fields};

use call_answer::Standing;
use entry::PingState;
use printout_rows::{key_field, ping_field, put_end, word_field};

// The bytes that an answer line can take.
pub const ROOM: usize = 64;

// The bytes that each function here asks for.
pub fn asked_room() -> usize
    ensures { result ≡ answer_room }
{
    ROOM
}

// The line of a number alone; its length.
pub fn put_number(out: &mut [u8], n: u8) -> usize
    requires { answer_room ≤ length out.old }
    ensures len { result ≡ length (number_row n) }
    ensures bytes { out.new ≡ store out.old 0 (number_row n) }
    ensures size { result ≤ answer_room }
{
    let end = text::put_decimal(out, 0, n as u64);
    put_end(out, end)
}

// The line of 0 and a word; its length.
pub fn put_word_row(out: &mut [u8], word: &[u8]) -> usize
    requires { (answer_room ≤ length out.old) × (length word.now ≤ 8) }
    ensures len { result ≡ length (row (decimal 0) (word.now ∷ [])) }
    ensures bytes { out.new ≡ store out.old 0 (row (decimal 0) (word.now ∷ [])) }
    ensures size { result ≤ answer_room }
{
    let a = text::put_decimal(out, 0, 0);
    let b = word_field(out, a, word);
    put_end(out, b)
}

// The line of 0 and two words; its length.
fn put_words_row(out: &mut [u8], word: &[u8], second: &[u8]) -> usize
    requires { (answer_room ≤ length out.old) × ((length word.now ≤ 8) × (length second.now ≤ 8)) }
    ensures len { result ≡ length (row (decimal 0) (word.now ∷ second.now ∷ [])) }
    ensures bytes { out.new ≡ store out.old 0 (row (decimal 0) (word.now ∷ second.now ∷ [])) }
    ensures size { result ≤ answer_room }
{
    let a = text::put_decimal(out, 0, 0);
    let b = word_field(out, a, word);
    let c = word_field(out, b, second);
    put_end(out, c)
}

// The line of an accepted ping; its length.
pub fn put_ping(out: &mut [u8], due: bool) -> usize
    requires { answer_room ≤ length out.old }
    ensures len { result ≡ length (row (decimal 0) (ping_fields due)) }
    ensures bytes { out.new ≡ store out.old 0 (row (decimal 0) (ping_fields due)) }
    ensures size { result ≤ answer_room }
{
    if due {
        return put_words_row(out, b"pong", b"ping");
    }
    put_word_row(out, b"pong")
}

// The line of an accepted pong whose sender waits, where `key` is the head's; its length.
fn put_waiting(out: &mut [u8], key: [u8; 64], ping: PingState) -> usize
    requires { answer_room ≤ length out.old }
    ensures len { result ≡ length (row (decimal 0) (pong_fields (Standing.Waiting ping) key)) }
    ensures bytes { out.new ≡ store out.old 0 (row (decimal 0) (pong_fields (Standing.Waiting ping) key)) }
    ensures size { result ≤ answer_room }
{
    let a = text::put_decimal(out, 0, 0);
    let b = word_field(out, a, b"wait");
    let c = key_field(out, b, key);
    let d = ping_field(out, c, ping);
    put_end(out, d)
}

// The line of an accepted pong, where `key` is the head's; its length.
pub fn put_pong(out: &mut [u8], standing: Standing, key: [u8; 64]) -> usize
    requires { answer_room ≤ length out.old }
    ensures len { result ≡ length (row (decimal 0) (pong_fields standing key)) }
    ensures bytes { out.new ≡ store out.old 0 (row (decimal 0) (pong_fields standing key)) }
    ensures size { result ≤ answer_room }
{
    match standing {
        Standing::Tail => put_word_row(out, b"tail"),
        Standing::TookEntry => put_word_row(out, b"seat"),
        Standing::RangeFull => put_word_row(out, b"wait"),
        Standing::Waiting(ping) => put_waiting(out, key, ping),
    }
}

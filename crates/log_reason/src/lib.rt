// What is told of a key: the text that spells it, and the reason as a row.
#![tactic(auto)]

ghost use Rattle.std.specs.Prelude.{◌≡◌, true, false, ◌≤◌, length, [], ◌∷◌};
ghost use Rattle.octets.specs.Octets.{store};
ghost use Rattle.text.specs.Hex.{unhex};
ghost use Rattle.text.specs.Decimals.{decimal};
ghost use Rattle.text.specs.Rows.{row};
ghost use Rattle.log_reason.specs.Row.{is_key_text, why_row};

use log_history::Reason;
use printout_rows::{decimal_field, put_end, put_word};

// The row of a word alone; its length.
fn put_alone(out: &mut [u8], word: &[u8]) -> usize
    requires { (64 ≤ length out.old) × (length word.now ≤ 8) }
    ensures len { result ≡ length (row word.now []) }
    ensures bytes { out.new ≡ store out.old 0 (row word.now []) }
    ensures room { result ≤ 64 }
{
    let a = put_word(out, 0, word);
    put_end(out, a)
}

// The row of a word and a number; its length.
fn put_one(out: &mut [u8], word: &[u8], n: u64) -> usize
    requires { (64 ≤ length out.old) × (length word.now ≤ 8) }
    ensures len { result ≡ length (row word.now (decimal n ∷ [])) }
    ensures bytes { out.new ≡ store out.old 0 (row word.now (decimal n ∷ [])) }
    ensures room { result ≤ 64 }
{
    let a = put_word(out, 0, word);
    let b = decimal_field(out, a, n);
    put_end(out, b)
}

// The row of a word and two numbers; its length.
fn put_two(out: &mut [u8], word: &[u8], n: u64, m: u64) -> usize
    requires { (64 ≤ length out.old) × (length word.now ≤ 8) }
    ensures len { result ≡ length (row word.now (decimal n ∷ decimal m ∷ [])) }
    ensures bytes { out.new ≡ store out.old 0 (row word.now (decimal n ∷ decimal m ∷ [])) }
    ensures room { result ≤ 64 }
{
    let a = put_word(out, 0, word);
    let b = decimal_field(out, a, n);
    let c = decimal_field(out, b, m);
    put_end(out, c)
}

// The row of a reason; its length.
fn put_reason(out: &mut [u8], reason: Reason) -> usize
    requires { 64 ≤ length out.old }
    ensures len { result ≡ length (why_row (Some reason)) }
    ensures bytes { out.new ≡ store out.old 0 (why_row (Some reason)) }
    ensures room { result ≤ 64 }
{
    match reason {
        Reason::Seated(n, m) => put_two(out, b"seated", n, m),
        Reason::Waiting(n) => put_one(out, b"waiting", n),
        Reason::Ping(n, m) => put_two(out, b"ping", n, m),
        Reason::Proof(n) => put_one(out, b"proof", n),
        Reason::Never(a) => put_one(out, b"never", a as u64),
        Reason::Unnamed => put_alone(out, b"unnamed"),
    }
}

// Writes the row of an answer, and returns its length. None is 5: the key isn't 128 lower-case hex digits.
pub fn put_why(out: &mut [u8; 64], answer: Option<Reason>) -> usize
    ensures len { result ≡ length (why_row answer) }
    ensures bytes { out.new ≡ store out.old 0 (why_row answer) }
    ensures room { result ≤ 64 }
{
    match answer {
        None => put_alone(out, b"5"),
        Some(reason) => put_reason(out, reason),
    }
}

// Whether a text is a key: 64 bytes in lower-case hex.
pub fn is_key_text(digits: &[u8]) -> bool
    ensures { result ≡ is_key_text digits.now }
{
    digits.len() == 128 && text::is_hex(digits)
}

// The key that a text spells.
pub fn key_of(digits: &[u8]) -> [u8; 64]
    requires { is_key_text digits.now ≡ true }
    ensures { result ≡ unhex digits.now }
{
    let mut key = [0; 64];
    text::put_unhex(&mut key, 0, digits);
    key
}

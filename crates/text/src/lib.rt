// Text: decimal numbers and hex, written into lent bytes and read, and marks found.
#![tactic(auto)]

ghost use Rattle.std.specs.Prelude.{◌≡◌, ◌+◌, ◌*◌, ◌≤◌, ◌<◌, length, [], ◌∷◌};
ghost use Rattle.octets.specs.Octets.{store};
ghost use Rattle.text.specs.Decimals.{decimal, digits_from, well_begun, decimal_of};
ghost use Rattle.text.specs.Decimals as spec;
ghost use Rattle.text.specs.Hex.{hex, hex_digit, is_hex_digit, is_hex, hex_value, unhex};
ghost use Rattle.text.specs.Marks.{until};

// The number of digits of a decimal.
pub fn decimal_len(n: u64) -> usize
    ensures { result ≡ length (decimal n) }
{
    let mut rest = n;
    let mut k = 1;
    while 10 <= rest {
        rest /= 10;
        k += 1;
    }
    k
}

// Writes the decimal of `n` from index `at`, and returns the index after it.
pub fn put_decimal(buf: &mut [u8], at: usize, n: u64) -> usize
    requires { at + length (decimal n) ≤ length buf.old }
    ensures next { result ≡ at + length (decimal n) }
    ensures bytes { buf.new ≡ store buf.old at (decimal n) }
{
    let end = at + decimal_len(n);
    let mut rest = n;
    for i in (at..end).rev() {
        buf[i] = b'0' + (rest % 10) as u8;
        rest /= 10;
    }
    end
}

// Writes `mark` and the decimal of `n` from index `at`, and returns the index after them.
pub fn put_marked(buf: &mut [u8], at: usize, mark: u8, n: u64) -> usize
    requires { at + length (mark ∷ decimal n) ≤ length buf.old }
    ensures next { result ≡ at + length (mark ∷ decimal n) }
    ensures bytes { buf.new ≡ store buf.old at (mark ∷ decimal n) }
{
    buf[at] = mark;
    put_decimal(buf, at + 1, n)
}

// The number `a` with one digit more.
fn push_digit(limit: u64, a: u64, b: u8) -> Option<u64>
    ensures { result ≡ digits_from limit a (b ∷ []) }
{
    if !b.is_ascii_digit() {
        return None;
    }
    let value = a.checked_mul(10)?.checked_add(u64::from(b - b'0'))?;
    if value <= limit { Some(value) } else { None }
}

// The number that a text of digits spells.
fn read_digits(s: &[u8], limit: u64) -> Option<u64>
    ensures { result ≡ digits_from limit 0 s.now }
{
    let mut value = 0;
    for b in s {
        value = push_digit(limit, value, *b)?;
    }
    Some(value)
}

// Whether a text is not empty and has no leading zero.
fn well_begun(s: &[u8]) -> bool
    ensures { result ≡ well_begun s.now }
{
    !s.is_empty() && (s[0] != b'0' || s.len() == 1)
}

// The number that a text spells, if it is digits with no leading zero, not empty, and at most `limit`.
pub fn read_decimal(s: &[u8], limit: u64) -> Option<u64>
    ensures { result ≡ decimal_of limit s.now }
{
    if well_begun(s) {
        read_digits(s, limit)
    } else {
        None
    }
}

fn hex_digit(d: u8) -> u8
    requires { d < 16 }
    ensures { result ≡ hex_digit d }
{
    if d < 10 { b'0' + d } else { b'a' + (d - 10) }
}

// Writes the hex of `src` from index `at`, and returns the index after it.
pub fn put_hex(buf: &mut [u8], at: usize, src: &[u8]) -> usize
    requires { at + 2 * length src.now ≤ length buf.old }
    ensures next { result ≡ at + length (hex src.now) }
    ensures bytes { buf.new ≡ store buf.old at (hex src.now) }
{
    let mut next = at;
    for b in src {
        buf[next] = hex_digit(*b / 16);
        buf[next + 1] = hex_digit(*b % 16);
        next += 2;
    }
    next
}

fn is_hex_digit(b: u8) -> bool
    ensures { result ≡ is_hex_digit b }
{
    matches!(b, b'0'..=b'9' | b'a'..=b'f')
}

// Whether a text is whole bytes in lower-case hex, and not empty.
pub fn is_hex(s: &[u8]) -> bool
    ensures { result ≡ is_hex s.now }
{
    !s.is_empty() && s.len() % 2 == 0 && s.iter().all(|b| is_hex_digit(*b))
}

// The value of a hex digit.
fn hex_value(b: u8) -> u8
    ensures value { result ≡ hex_value b }
    ensures upper_bound { result < 16 }
{
    if b <= b'9' { b % 16 } else { (b % 16 + 9) % 16 }
}

// Writes the bytes whose hex is `s` from index `at`, and returns the index after them.
pub fn put_unhex(buf: &mut [u8], at: usize, s: &[u8]) -> usize
    requires { at + length (unhex s.now) ≤ length buf.old }
    ensures next { result ≡ at + length (unhex s.now) }
    ensures bytes { buf.new ≡ store buf.old at (unhex s.now) }
{
    let n = s.len() / 2;
    for i in 0..n {
        buf[at + i] = hex_value(s[2 * i]) * 16 + hex_value(s[2 * i + 1]);
    }
    at + n
}

// The index of the next `mark` from index `at` on, or the end.
pub fn find(s: &[u8], at: usize, mark: u8) -> usize
    requires { at ≤ length s.now }
    ensures end { result ≡ at + length (until mark at s.now) }
    ensures within { result ≤ length s.now }
{
    let rest = &s[at..];
    at + rest.iter().position(|b| *b == mark).unwrap_or(rest.len())
}

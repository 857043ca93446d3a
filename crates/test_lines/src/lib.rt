// What the programs that run cases share: a case read from its line in hex, its fields, and what is printed.
#![tactic(auto)]

ghost use Rattle.std.specs.Prelude.{◌≤◌, length};

// ---- the line of a case

// What is read of a line: `n` bytes, and after an odd number of digits the last one.
#[derive(Clone, Copy)]
pub struct Line {
    pub n: usize,
    pub odd: bool,
    pub half: u8,
}

impl Line {
    // A line of which nothing is read yet.
    pub fn new() -> Line
        ensures { result.n ≤ 0 }
    {
        Line {
            n: 0,
            odd: false,
            half: 0,
        }
    }
}

// The value of a lower-case hex digit.
fn value(b: u8) -> u8 {
    if b < b'a' {
        b % 16
    } else {
        (b - b'a') % 6 + 10
    }
}

// Takes one more digit of a line; a case that does not fit is cut.
pub fn push(case: &mut [u8], line: Line, b: u8) -> Line
    requires { line.n ≤ length case.old }
    ensures { result.n ≤ length case.old }
{
    let n = line.n;
    if line.odd {
        if n < case.len() {
            case[n] = line.half % 16 * 16 + value(b) % 16;
            return Line {
                n: n + 1,
                odd: false,
                half: 0,
            };
        }
        return Line {
            n,
            odd: false,
            half: 0,
        };
    }
    Line {
        n,
        odd: true,
        half: value(b),
    }
}

// ---- the fields of a case

// The `n` bytes from index `at`; none where they do not lie inside.
pub fn bytes_at(s: &[u8], at: usize, n: usize) -> &[u8]
    ensures { length result.now ≤ n }
{
    if s.len() < at {
        return &s[0..0];
    }
    if s.len() - at < n {
        return &s[0..0];
    }
    let end = at + n;
    &s[at..end]
}

// The number in the `width` bytes from index `at`; 0 where they do not lie inside.
pub fn number(s: &[u8], at: usize, width: usize) -> u64
    requires { width ≤ 8 }
{
    let bytes = bytes_at(s, at, width);
    octets::number_at(bytes, 0, bytes.len())
}

// The number in the byte at index `at`.
pub fn byte(s: &[u8], at: usize) -> u8 {
    (number(s, at, 1) % 256) as u8
}

// The number in the two bytes from index `at`.
pub fn short(s: &[u8], at: usize) -> u16 {
    (number(s, at, 2) % 65536) as u16
}

// Stores bytes from index `at`; none where they do not all lie inside.
pub fn store(s: &mut [u8], at: usize, bytes: &[u8]) {
    if at <= s.len() {
        if bytes.len() <= s.len() - at {
            octets::put_bytes(s, at, bytes);
        }
    }
}

// ---- what is printed; what fails to be written is lost

pub fn print(rt: &impl Print, text: &str) {
    let _ = rt.print(text);
}

// A number in decimal.
pub fn print_decimal(rt: &impl Print, n: u64) {
    let _ = rt.print(n);
}

pub fn print_hex(rt: &impl Print, bytes: &[u8]) {
    for byte in bytes {
        let _ = print!(rt; "{byte:02x}");
    }
}

// A tab and a number.
pub fn print_number(rt: &impl Print, n: u64) {
    print(rt, "\t");
    print_decimal(rt, n);
}

// A tab and bytes.
pub fn print_bytes(rt: &impl Print, bytes: &[u8]) {
    print(rt, "\t");
    print_hex(rt, bytes);
}

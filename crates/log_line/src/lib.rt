// One line of a log, without its 0A: own, rx, sent, sweep, or none of them.
#![tactic(auto)]

ghost use Rattle.std.specs.Prelude.{◌≡◌, ◌+◌, ◌-◌, ◌^◌, ◌≤◌, ◌<◌, length, take, drop};
ghost use Rattle.octets.specs.Octets.{store};
ghost use Rattle.log_line.specs.Fields.{span, fields, said, Within, counted};
ghost use Rattle.log_line.specs.Fields as spec;
ghost use Rattle.log_line.specs.Forms.{line_of};
ghost use Rattle.log_line.specs.Forms as form;

use octets::same_bytes;
use packet_span::Span;

// What a line says. Spans are of hex digits.
#[derive(Clone, Copy)]
pub enum Line {
    Own {
        buckets: u64,
        key: Span,
    },
    // The signer is empty for `-`.
    Rx {
        now: u64,
        unix: u64,
        address: Span,
        port: u16,
        signer: Span,
        datagram: Span,
    },
    Sent {
        now: u64,
        key: Span,
        address: Span,
        udp: u16,
        tcp: u16,
        hash: Span,
    },
    Sweep {
        now: u64,
    },
    // Of no form: document 01's answer 21.
    Unreadable,
}

// What a field after the first must be.
#[derive(Clone, Copy)]
enum Kind {
    // A decimal of at most this.
    Number(u64),
    Hex,
    HexOrDash,
}

// How many fields a line has, and its first seven.
#[derive(Clone, Copy)]
struct Fields {
    count: usize,
    spans: [Span; 7],
}

impl Fields {
    // One field more, which ends before index `end`.
    fn add(mut self, start: usize, end: usize) -> Self
        requires { (start ≤ end) × (self.count < 2 ^ 63) }
        ensures { result ≡ spec.added self (span start (end - start)) }
    {
        if self.count < 7 {
            self.spans[self.count] = Span {
                start,
                len: end - start,
            };
        }
        self.count += 1;
        self
    }
}

// The fields of a line.
fn split(line: &[u8]) -> Fields
    ensures { result ≡ counted (fields line.now) }
{
    let mut found = Fields {
        count: 0,
        spans: [Span { start: 0, len: 0 }; 7],
    };
    let mut start = 0;
    for (i, b) in line.iter().enumerate() {
        if *b == b'\t' {
            found = found.add(start, i);
            start = i + 1;
        }
    }
    found.add(start, line.len())
}

// The bytes of a field.
pub fn text_of(line: &[u8], f: Span) -> &[u8]
    requires { f.start + f.len ≤ length line.now }
    ensures { result.now ≡ spec.text line.now f }
{
    &line[f.start..f.start + f.len]
}

// Writes the bytes that a field of a line spells to the start of `buf`, and returns how many there are.
pub fn decode_field(line: &[u8], field: Span, buf: &mut [u8]) -> usize
    requires { (length line.now ≤ 3000) × ((field.start + field.len ≤ length line.now) × (1500 ≤ length buf.old)) }
    ensures count { result ≡ length (said line.now field) }
    ensures bytes { buf.new ≡ store buf.old 0 (said line.now field) }
    ensures most { result ≤ 1500 }
{
    text::put_unhex(buf, 0, text_of(line, field))
}

// Whether a field is of a kind.
fn has(kind: Kind, s: &[u8]) -> bool
    ensures { result ≡ form.has kind s.now }
{
    match kind {
        Kind::Number(max) => text::read_decimal(s, max).is_some(),
        Kind::Hex => text::is_hex(s),
        Kind::HexOrDash => text::is_hex(s) || same_bytes(s, b"-"),
    }
}

// Whether fields are of these kinds, one for one.
fn each(line: &[u8], spans: &[Span], kinds: &[Kind]) -> bool
    requires { (length spans.now ≡ length kinds.now) × Within line.now spans.now }
    ensures { result ≡ form.each line.now kinds.now spans.now }
{
    for (kind, f) in kinds.iter().zip(spans) {
        if !has(*kind, text_of(line, *f)) {
            return false;
        }
    }
    true
}

// Whether a line is of a form: a word, and then fields of these kinds.
fn of_form(line: &[u8], found: Fields, word: &[u8], kinds: &[Kind]) -> bool
    requires { (length kinds.now ≤ 6) × (found ≡ counted (fields line.now)) }
    ensures { result ≡ form.of_form line.now word.now kinds.now (fields line.now) }
{
    if found.count != kinds.len() + 1 {
        return false;
    }
    same_bytes(text_of(line, found.spans[0]), word)
        && each(line, &found.spans[1..found.count], kinds)
}

// The number that a field spells, of at most `max`.
fn number(line: &[u8], f: Span, max: u64) -> u64
    requires { f.start + f.len ≤ length line.now }
    ensures number { result ≡ form.number max line.now f }
    ensures bound { result ≤ max }
{
    text::read_decimal(text_of(line, f), max).unwrap_or(0)
}

// The span of a signer: empty for `-`.
fn signer(line: &[u8], f: Span) -> Span
    requires { f.start + f.len ≤ length line.now }
    ensures { result ≡ form.signer line.now f }
{
    if same_bytes(text_of(line, f), b"-") {
        return Span {
            start: f.start,
            len: 0,
        };
    }
    f
}

const MAX64: u64 = 18446744073709551615;

const MAX16: u64 = 65535;

fn number64(line: &[u8], f: Span) -> u64
    requires { f.start + f.len ≤ length line.now }
    ensures { result ≡ form.number64 line.now f }
{
    number(line, f, MAX64)
}

fn number16(line: &[u8], f: Span) -> u16
    requires { f.start + f.len ≤ length line.now }
    ensures { result ≡ form.number16 line.now f }
{
    number(line, f, MAX16) as u16
}

fn own(line: &[u8], spans: [Span; 7]) -> Line
    requires { Within line.now spans }
    ensures { result ≡ form.own_line line.now spans }
{
    Line::Own {
        buckets: number64(line, spans[1]),
        key: spans[2],
    }
}

fn rx(line: &[u8], spans: [Span; 7]) -> Line
    requires { Within line.now spans }
    ensures { result ≡ form.rx_line line.now spans }
{
    Line::Rx {
        now: number64(line, spans[1]),
        unix: number64(line, spans[2]),
        address: spans[3],
        port: number16(line, spans[4]),
        signer: signer(line, spans[5]),
        datagram: spans[6],
    }
}

fn sent(line: &[u8], spans: [Span; 7]) -> Line
    requires { Within line.now spans }
    ensures { result ≡ form.sent_line line.now spans }
{
    Line::Sent {
        now: number64(line, spans[1]),
        key: spans[2],
        address: spans[3],
        udp: number16(line, spans[4]),
        tcp: number16(line, spans[5]),
        hash: spans[6],
    }
}

fn sweep(line: &[u8], spans: [Span; 7]) -> Line
    requires { Within line.now spans }
    ensures { result ≡ form.sweep_line line.now spans }
{
    Line::Sweep {
        now: number64(line, spans[1]),
    }
}

// What a line says.
pub fn read_line(line: &[u8]) -> Line
    ensures { result ≡ line_of line.now }
{
    if log_lines::LIMIT < line.len() {
        return Line::Unreadable;
    }
    let found = split(line);
    let spans = found.spans;
    let any = Kind::Number(MAX64);
    let port = Kind::Number(MAX16);
    let hex = Kind::Hex;
    let dash = Kind::HexOrDash;
    if of_form(line, found, b"own", &[any, hex]) {
        return own(line, spans);
    }
    if of_form(line, found, b"rx", &[any, any, hex, port, dash, hex]) {
        return rx(line, spans);
    }
    if of_form(line, found, b"sent", &[any, hex, hex, port, port, hex]) {
        return sent(line, spans);
    }
    if of_form(line, found, b"sweep", &[any]) {
        return sweep(line, spans);
    }
    Line::Unreadable
}

// A part of a byte string by its place: of a datagram, or of a log's line.
#![tactic(auto)]

ghost use Rattle.std.specs.Prelude.{◌≡◌, ◌+◌, ◌<◌, ◌^◌};
ghost use Rattle.packet_span.specs.Parts.{bytes_of};
ghost use Rattle.packet_span.specs.Parts as spec;

// `len` bytes from `start` on.
#[derive(Clone, Copy, Debug, PartialEq, Eq)]
pub struct Span {
    pub start: usize,
    pub len: usize,
}

// The bytes of a span; none where it does not lie inside the datagram.
#[tactic(auto, using(crate::proofs::Parts::bytes_part))]
pub fn bytes_of(datagram: &[u8], span: Span) -> &[u8]
    ensures { result.now ≡ bytes_of datagram.now span }
{
    if datagram.len() < span.start || datagram.len() - span.start < span.len {
        return &[];
    }
    &datagram[span.start..span.start + span.len]
}

// A span, `by` bytes further on.
pub fn moved(by: usize, span: Span) -> Span
    requires { by + span.start < 2 ^ 64 }
    ensures { result ≡ spec.moved by span }
{
    Span {
        start: by + span.start,
        len: span.len,
    }
}

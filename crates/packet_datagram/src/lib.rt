// A datagram of the discv4 wire protocol: hash (32), signature (65), type (1), data. Each test of document 01 that reads
// only the datagram is a function here or in the crate packet_envelope; the table's tests go between them.
#![tactic(auto)]

ghost use Rattle.std.specs.Prelude.{◌≡◌};
ghost use Rattle.packet_datagram.specs.Datagram.{packet_in, record_of, read_at};
ghost use Rattle.packet_datagram.specs.Datagram as spec;

use node::UnixSeconds;
use packet::{Packet, Parsed};
use packet_span::Span;

// The packet by its type and data, or answer 8, 9 or 10. The spans of its fields are the datagram's.
pub fn packet_in(datagram: &[u8]) -> Parsed
    ensures { result ≡ packet_in datagram.now }
{
    if datagram.len() < 98 {
        return Parsed::Refused(numbers::UNKNOWN_TYPE);
    }
    packet::read_data(datagram[97], &datagram[98..], 98)
}

// Whether an expiration is below the Unix time.
pub fn expired(expiration: u64, unix: UnixSeconds) -> bool
    ensures { result ≡ spec.expired expiration unix }
{
    expiration < unix.0
}

// Answer 11: a packet that has an expiration, and it is below the Unix time.
pub fn is_expired(packet: Packet, unix: UnixSeconds) -> bool
    ensures { result ≡ spec.is_expired packet unix }
{
    match packet {
        Packet::Ping(p) => expired(p.expiration, unix),
        Packet::Pong(p) => expired(p.expiration, unix),
        Packet::FindNode(p) => expired(p.expiration, unix),
        Packet::Neighbors(p) => expired(p.expiration, unix),
        Packet::EnrRequest(p) => expired(p.expiration, unix),
        Packet::EnrResponse(_) => false,
    }
}

// The packet, or answer 8, 9, 10 or 11.
pub fn read(datagram: &[u8], unix: UnixSeconds) -> Parsed
    ensures { result ≡ read_at datagram.now unix }
{
    match packet_in(datagram) {
        Parsed::Packet(packet) => {
            if is_expired(packet, unix) {
                return Parsed::Refused(numbers::EXPIRED);
            }
            Parsed::Packet(packet)
        }
        Parsed::Refused(n) => Parsed::Refused(n),
    }
}

fn record_span(packet: Packet) -> Span
    ensures { result ≡ spec.record_span packet }
{
    match packet {
        Packet::EnrResponse(p) => p.record,
        Packet::Ping(_) => Span { start: 0, len: 0 },
        Packet::Pong(_) => Span { start: 0, len: 0 },
        Packet::FindNode(_) => Span { start: 0, len: 0 },
        Packet::Neighbors(_) => Span { start: 0, len: 0 },
        Packet::EnrRequest(_) => Span { start: 0, len: 0 },
    }
}

fn span_in(parsed: Parsed) -> Span
    ensures { result ≡ spec.span_in parsed }
{
    match parsed {
        Parsed::Packet(packet) => record_span(packet),
        Parsed::Refused(_) => Span { start: 0, len: 0 },
    }
}

// The record of an ENRResponse with its header, as that part of the datagram; nothing of another packet.
pub fn record_part(datagram: &[u8]) -> &[u8]
    ensures { result.now ≡ record_of datagram.now }
{
    packet_span::bytes_of(datagram, span_in(packet_in(datagram)))
}

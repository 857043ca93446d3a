// What one item of a packet's data must be: an integer, a string, an endpoint, a node, a record.
#![tactic(auto)]

ghost use Rattle.std.specs.Prelude.{◌≡◌, []};
ghost use Rattle.rlp.specs.Encoding.{item_of};
ghost use Rattle.packet_kinds.specs.Payload.{items_of};
ghost use Rattle.packet_kinds.specs.Kinds as spec;

// What an item must be.
#[derive(Clone, Copy, Debug, PartialEq, Eq)]
pub enum Kind {
    // An integer of at most this.
    Uint(u64),
    // A string of this many bytes.
    Bytes(usize),
    // A string of 4 or 16 bytes.
    Address,
    // A string of 4 or 16 bytes, or the empty one.
    SenderAddress,
    // A list of exactly an address, a UDP port and a TCP port.
    Endpoint,
    // The same where the address may be empty.
    Sender,
    // A list of lists of exactly an endpoint's items and a 64-byte key.
    Nodes,
    // A list of at most 300 bytes with its header.
    Record,
}

// Whether items are what a schema asks, the worse the greater.
#[derive(Clone, Copy, Debug, PartialEq, Eq, PartialOrd, Ord)]
pub enum Verdict {
    Good,
    // A field that is missing or of the wrong kind: answer 10.
    Wrong,
    // An item that is not whole or not canonical: answer 9.
    Broken,
}

// The largest port.
const PORT: u64 = 65535;

// The verdict of two: broken before wrong.
pub fn worst(a: Verdict, b: Verdict) -> Verdict
    ensures { result ≡ spec.worst a b }
{
    a.max(b)
}

pub fn good_if(ok: bool) -> Verdict
    ensures { result ≡ spec.good_if ok }
{
    if ok { Verdict::Good } else { Verdict::Wrong }
}

// Whether an item is the string that `kind` asks; `list` says that the item of payload `p` is a list.
pub fn is_leaf(kind: Kind, list: bool, p: &[u8]) -> bool
    ensures { result ≡ spec.is_leaf kind (item_of list p.now) }
{
    if list {
        return false;
    }
    match kind {
        Kind::Uint(max) => rlp::read_uint(p).is_some_and(|v| v <= max),
        Kind::Bytes(n) => p.len() == n,
        Kind::Address => node::is_address_size(p.len()),
        Kind::SenderAddress => packet_model::is_sender_size(p.len()),
        Kind::Endpoint => false,
        Kind::Sender => false,
        Kind::Nodes => false,
        Kind::Record => false,
    }
}

// Whether the items of the payload `s` are the strings that `kinds` ask, one for one.
#[tactic(auto, using(rlp::proofs::Reading::item_ends))]
fn leaves(s: &[u8], kinds: &[Kind]) -> bool
    ensures { result ≡ spec.leaves kinds.now (items_of s.now) }
{
    let mut at = 0;
    for kind in kinds {
        let Some(item) = rlp::read_header(&s[at..]) else {
            return false;
        };
        let start = at + item.skip;
        let end = start + item.size;
        if !is_leaf(*kind, item.list, &s[start..end]) {
            return false;
        }
        at = end;
    }
    is_end(&s[at..])
}

// Whether no item is at the front of `s`.
#[tactic(auto, using(crate::proofs::ItemTurns::no_leaves))]
fn is_end(s: &[u8]) -> bool
    ensures { result ≡ spec.leaves [] (items_of s.now) }
{
    rlp::read_header(s).is_none()
}

// Whether an item is a list of exactly the strings that `kinds` ask.
fn tuple(list: bool, p: &[u8], kinds: &[Kind]) -> Verdict
    ensures { result ≡ spec.tuple kinds.now (item_of list p.now) }
{
    if list {
        if rlp::items_whole(p) {
            good_if(leaves(p, kinds))
        } else {
            Verdict::Broken
        }
    } else {
        Verdict::Wrong
    }
}

pub fn endpoint(list: bool, p: &[u8]) -> Verdict
    ensures { result ≡ spec.tuple spec.endpoint (item_of list p.now) }
{
    let port = Kind::Uint(PORT);
    tuple(list, p, &[Kind::Address, port, port])
}

pub fn sender(list: bool, p: &[u8]) -> Verdict
    ensures { result ≡ spec.tuple spec.sender (item_of list p.now) }
{
    let port = Kind::Uint(PORT);
    tuple(list, p, &[Kind::SenderAddress, port, port])
}

pub fn node(list: bool, p: &[u8]) -> Verdict
    ensures { result ≡ spec.tuple spec.node (item_of list p.now) }
{
    let port = Kind::Uint(PORT);
    tuple(list, p, &[Kind::Address, port, port, Kind::Bytes(64)])
}

pub fn is_record(list: bool, p: &[u8]) -> bool
    ensures { result ≡ spec.is_record_item (item_of list p.now) }
{
    list && rlp::header_size(p.len()) + p.len() <= 300
}

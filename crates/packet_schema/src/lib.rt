// What the items of a packet's data must be, by one mechanism for all packets: a schema is a list of kinds, one for each item.
#![tactic(auto)]

ghost use Rattle.std.specs.Prelude.{◌≡◌};
ghost use Rattle.rlp.specs.Encoding.{item_of};
ghost use Rattle.packet_kinds.specs.Payload.{items_of};
ghost use Rattle.packet_schema.specs.Schema as schema;

use packet_kinds::{Kind, Verdict, good_if, is_leaf, worst};

// Whether each item of the payload `s` is a node.
#[tactic(auto, using(rlp::proofs::Reading::item_ends))]
fn each_node(s: &[u8]) -> Verdict
    ensures { result ≡ schema.each_node (items_of s.now) }
{
    let mut verdict = Verdict::Good;
    let mut at = 0;
    while at < s.len() {
        let Some(item) = rlp::read_header(&s[at..]) else {
            return verdict;
        };
        let start = at + item.skip;
        let end = start + item.size;
        let one = packet_kinds::node(item.list, &s[start..end]);
        verdict = worst(verdict, one);
        at = end;
    }
    verdict
}

fn nodes(list: bool, p: &[u8]) -> Verdict
    ensures { result ≡ schema.nodes (item_of list p.now) }
{
    if list {
        if rlp::items_whole(p) {
            each_node(p)
        } else {
            Verdict::Broken
        }
    } else {
        Verdict::Wrong
    }
}

// Whether an item is what `kind` asks.
#[tactic(auto, unfolding(crate::specs::Schema::field))]
fn field(kind: Kind, list: bool, p: &[u8]) -> Verdict
    ensures { result ≡ schema.field kind (item_of list p.now) }
{
    match kind {
        Kind::Uint(_) | Kind::Bytes(_) | Kind::Address | Kind::SenderAddress => {
            good_if(is_leaf(kind, list, p))
        }
        Kind::Endpoint => packet_kinds::endpoint(list, p),
        Kind::Sender => packet_kinds::sender(list, p),
        Kind::Nodes => nodes(list, p),
        Kind::Record => good_if(packet_kinds::is_record(list, p)),
    }
}

// Whether the items of the payload `s` are what `kinds` ask, of which `required` must be there.
#[tactic(auto, using(rlp::proofs::Reading::item_ends))]
fn fields(s: &[u8], kinds: &[Kind], required: usize) -> Verdict
    ensures { result ≡ schema.fields required kinds.now (items_of s.now) }
{
    let mut verdict = Verdict::Good;
    let mut at = 0;
    for (i, kind) in kinds.iter().enumerate() {
        let Some(item) = rlp::read_header(&s[at..]) else {
            return worst(verdict, good_if(required <= i));
        };
        let start = at + item.skip;
        let end = start + item.size;
        let one = field(*kind, item.list, &s[start..end]);
        verdict = worst(verdict, one);
        at = end;
    }
    verdict
}

// Whether packet data is a list of whole items that are what `kinds` ask, of which `required` must be there.
// Items after those of the kinds, and bytes after the list, are ignored.
#[tactic(auto, using(crate::proofs::Turns::payload, crate::proofs::Turns::item_fits))]
pub fn check_data(bytes: &[u8], kinds: &[Kind], required: usize) -> Verdict
    ensures { result ≡ schema.verdict required kinds.now bytes.now }
{
    let Some(item) = rlp::read_header(bytes) else {
        return Verdict::Broken;
    };
    if !item.list {
        return Verdict::Broken;
    }
    let end = item.skip + item.size;
    let p = &bytes[item.skip..end];
    if !rlp::items_whole(p) {
        return Verdict::Broken;
    }
    fields(p, kinds, required)
}

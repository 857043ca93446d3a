// The six packets of the discv4 wire protocol as RLP items (specs/), and what readers and writers of them share.
#![tactic(auto)]

ghost use Rattle.std.specs.Prelude.{◌≡◌};
ghost use Rattle.packet_model.specs.From.{is_sender_size};

// The address in a Ping's `from` has 4 or 16 bytes, or none where it is unknown.
pub fn is_sender_size(n: usize) -> bool
    ensures { result ≡ is_sender_size n }
{
    n == 0 || node::is_address_size(n)
}

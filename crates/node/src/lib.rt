// The two clocks; nodes, their endpoints and addresses.
#![tactic(auto)]

ghost use Rattle.std.specs.Prelude.{◌≡◌};
ghost use Rattle.node.specs.Nodes.{no_node, is_address_size};

// Document 01's box milliseconds: a clock that never goes back. Pings and proofs are timed by it.
#[derive(Clone, Copy)]
pub struct MonotonicMillis(pub u64);

// Document 01's packet Unix seconds: a clock that may jump either way. Only expiration reads it.
#[derive(Clone, Copy)]
pub struct UnixSeconds(pub u64);

// The first `len` bytes of `address` are the IP address.
#[repr(C)]
#[derive(Clone, Copy)]
pub struct Endpoint {
    pub len: u8,
    pub address: [u8; 16],
    pub udp: u16,
    pub tcp: u16,
}

// A node record, as lists of nodes have it.
#[repr(C)]
#[derive(Clone, Copy)]
pub struct Node {
    pub key: [u8; 64],
    pub endpoint: Endpoint,
}

// An IP address has 4 or 16 bytes.
pub fn is_address_size(n: usize) -> bool
    ensures { result ≡ is_address_size n }
{
    matches!(n, 4 | 16)
}

// A node of zeros.
pub fn no_node() -> Node
    ensures { result ≡ no_node }
{
    Node {
        key: [0; 64],
        endpoint: Endpoint {
            len: 0,
            address: [0; 16],
            udp: 0,
            tcp: 0,
        },
    }
}

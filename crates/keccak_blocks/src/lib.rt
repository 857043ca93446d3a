// A block of Keccak-256 into the state, and the hash out of it.
#![tactic(auto)]

ghost use Rattle.std.specs.Prelude.{◌≡◌, ◌+◌, ◌≤◌, ◌<◌, length};
ghost use Rattle.keccak_pad.specs.Padding.{rate};
ghost use Rattle.keccak_blocks.specs.Blocks.{lane_at, xor_block, squeezed};

// The lane whose eight bytes, lowest first, start at `at`. The compiler makes one load of it.
fn lane_at(b: &[u8], at: usize) -> u64
    requires { at + 8 ≤ length b.now }
    ensures { result ≡ lane_at b.now at }
{
    u64::from_le_bytes([
        b[at],
        b[at + 1],
        b[at + 2],
        b[at + 3],
        b[at + 4],
        b[at + 5],
        b[at + 6],
        b[at + 7],
    ])
}

// The state with a block added into its first 17 lanes. C-12: a block is taken as its 17 lanes of eight bytes; its bytes one by one leave the same state
// (`OneByOne`, keccak_bytewise).
pub fn xor_block(a: [u64; 25], block: &[u8]) -> [u64; 25]
    requires { length block.now ≡ rate }
    ensures { result ≡ xor_block a block.now }
{
    [
        a[0] ^ lane_at(block, 0),
        a[1] ^ lane_at(block, 8),
        a[2] ^ lane_at(block, 16),
        a[3] ^ lane_at(block, 24),
        a[4] ^ lane_at(block, 32),
        a[5] ^ lane_at(block, 40),
        a[6] ^ lane_at(block, 48),
        a[7] ^ lane_at(block, 56),
        a[8] ^ lane_at(block, 64),
        a[9] ^ lane_at(block, 72),
        a[10] ^ lane_at(block, 80),
        a[11] ^ lane_at(block, 88),
        a[12] ^ lane_at(block, 96),
        a[13] ^ lane_at(block, 104),
        a[14] ^ lane_at(block, 112),
        a[15] ^ lane_at(block, 120),
        a[16] ^ lane_at(block, 128),
        a[17],
        a[18],
        a[19],
        a[20],
        a[21],
        a[22],
        a[23],
        a[24],
    ]
}

// The first 32 bytes of the state.
pub fn squeeze(a: [u64; 25]) -> [u8; 32]
    ensures { result ≡ squeezed a }
{
    let mut hash = [0; 32];
    hash[0..8].copy_from_slice(&a[0].to_le_bytes());
    hash[8..16].copy_from_slice(&a[1].to_le_bytes());
    hash[16..24].copy_from_slice(&a[2].to_le_bytes());
    hash[24..32].copy_from_slice(&a[3].to_le_bytes());
    hash
}

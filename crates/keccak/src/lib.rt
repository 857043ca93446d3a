// Keccak-256, the original Keccak with first padding byte 01 (not FIPS 202's SHA3-256).
#![tactic(auto)]

ghost use Rattle.std.specs.Prelude.{◌≡◌, length};
ghost use Rattle.keccak_steps.specs.Permutation.{keccak_f};
ghost use Rattle.keccak_pad.specs.Padding.{rate};
ghost use Rattle.keccak_blocks.specs.Blocks.{xor_block};
ghost use Rattle.keccak.specs.Sponge.{keccak256};

use keccak_blocks::{squeeze, xor_block};
use keccak_pad::{RATE, pad};

// Absorbs a block: adds it to the state, and the permutation follows.
fn absorb(a: [u64; 25], block: &[u8]) -> [u64; 25]
    requires { length block.now ≡ rate }
    ensures { result ≡ keccak_f (xor_block a block.now) }
{
    keccak_f::permute(xor_block(a, block))
}

// The hash of a message of any length.
pub fn keccak256(message: &[u8]) -> [u8; 32]
    ensures { result ≡ keccak256 message.now }
{
    let (blocks, tail) = message.as_chunks::<RATE>();
    let mut s = [0; 25];
    for block in blocks {
        let next = absorb(s, block);
        s = next;
    }
    squeeze(absorb(s, &pad(tail)))
}

// For C and Rust programs that link the static library.
#[unsafe(no_mangle)]
pub extern "C" fn keccak256_into(message: &[u8], out: &mut [u8; 32])
    ensures { out.new ≡ keccak256 message.now }
{
    let hash = keccak256(message);
    *out = hash;
}

// The permutation Keccak-f[1600].
// A state is 25 lanes of 64 bits; lane (x, y) stands at x + 5 * y.
#![tactic(auto)]

ghost use Rattle.std.specs.Prelude.{◌≡◌};
ghost use Rattle.keccak_complement.specs.Complement.{complement};
ghost use Rattle.keccak_f.specs.Constants.{published_constants};
ghost use Rattle.keccak_steps.specs.Permutation.{round, keccak_f};

use keccak_complement::{chi_complemented, complemented};
use keccak_rho::rho;
use keccak_steps::{iota, pi, theta};

// The published round constants of iota.
const ROUND_CONSTANTS: [u64; 24] = [
    0x0000000000000001,
    0x0000000000008082,
    0x800000000000808a,
    0x8000000080008000,
    0x000000000000808b,
    0x0000000080000001,
    0x8000000080008081,
    0x8000000000008009,
    0x000000000000008a,
    0x0000000000000088,
    0x0000000080008009,
    0x000000008000000a,
    0x000000008000808b,
    0x800000000000008b,
    0x8000000000008089,
    0x8000000000008003,
    0x8000000000008002,
    0x8000000000000080,
    0x000000000000800a,
    0x800000008000000a,
    0x8000000080008081,
    0x8000000000008080,
    0x0000000080000001,
    0x8000000080008008,
];

// The table is the published one.
fn round_constants() -> [u64; 24]
    ensures { result ≡ published_constants }
{
    ROUND_CONSTANTS
}

// Two rounds of a complemented state. Each step is called here, and no round has a function of its own: so the compiler inlines all of them.
fn two_rounds(a: [u64; 25], c: u64, d: u64) -> [u64; 25]
    ensures { result ≡ complement (round d (round c (complement a))) }
{
    let b = iota(chi_complemented(pi(rho(theta(a)))), c);
    iota(chi_complemented(pi(rho(theta(b)))), d)
}

// The permutation Keccak-f[1600]: 24 rounds, two a turn, between which six lanes are kept inverted.
pub fn permute(a: [u64; 25]) -> [u64; 25]
    ensures { result ≡ keccak_f a }
{
    // copied once, so that a round reads its constant from memory that is already filled
    let constants = round_constants();
    let mut s = complemented(a);
    for i in 0..12 {
        let next = two_rounds(s, constants[2 * i], constants[2 * i + 1]);
        s = next;
    }
    complemented(s)
}

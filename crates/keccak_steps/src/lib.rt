// The steps of the permutation Keccak-f[1600] that have no table and invert nothing: theta, pi and iota. `specs/` has the whole permutation, as it
// is published.
// A state is 25 lanes of 64 bits; lane (x, y) stands at x + 5 * y. The steps are straight-line code on arrays by value, which the compiler
// inlines and keeps in registers.
#![tactic(auto)]

ghost use Rattle.std.specs.Prelude.{◌≡◌};
ghost use Rattle.keccak_steps.specs.Permutation as spec;

pub fn theta(a: [u64; 25]) -> [u64; 25]
    ensures { result ≡ spec.theta a }
{
    let [
        a0,
        a1,
        a2,
        a3,
        a4,
        a5,
        a6,
        a7,
        a8,
        a9,
        a10,
        a11,
        a12,
        a13,
        a14,
        a15,
        a16,
        a17,
        a18,
        a19,
        a20,
        a21,
        a22,
        a23,
        a24,
    ] = a;
    let c0 = a0 ^ a5 ^ a10 ^ a15 ^ a20;
    let c1 = a1 ^ a6 ^ a11 ^ a16 ^ a21;
    let c2 = a2 ^ a7 ^ a12 ^ a17 ^ a22;
    let c3 = a3 ^ a8 ^ a13 ^ a18 ^ a23;
    let c4 = a4 ^ a9 ^ a14 ^ a19 ^ a24;
    let d0 = c4 ^ (c1 << 1 | c1 >> 63);
    let d1 = c0 ^ (c2 << 1 | c2 >> 63);
    let d2 = c1 ^ (c3 << 1 | c3 >> 63);
    let d3 = c2 ^ (c4 << 1 | c4 >> 63);
    let d4 = c3 ^ (c0 << 1 | c0 >> 63);
    [
        a0 ^ d0,
        a1 ^ d1,
        a2 ^ d2,
        a3 ^ d3,
        a4 ^ d4,
        a5 ^ d0,
        a6 ^ d1,
        a7 ^ d2,
        a8 ^ d3,
        a9 ^ d4,
        a10 ^ d0,
        a11 ^ d1,
        a12 ^ d2,
        a13 ^ d3,
        a14 ^ d4,
        a15 ^ d0,
        a16 ^ d1,
        a17 ^ d2,
        a18 ^ d3,
        a19 ^ d4,
        a20 ^ d0,
        a21 ^ d1,
        a22 ^ d2,
        a23 ^ d3,
        a24 ^ d4,
    ]
}

pub fn pi(a: [u64; 25]) -> [u64; 25]
    ensures { result ≡ spec.pi a }
{
    [
        a[0], a[6], a[12], a[18], a[24], a[3], a[9], a[10], a[16], a[22], a[1], a[7], a[13], a[19],
        a[20], a[4], a[5], a[11], a[17], a[23], a[2], a[8], a[14], a[15], a[21],
    ]
}

// Adds the round constant c to lane (0, 0).
pub fn iota(a: [u64; 25], c: u64) -> [u64; 25]
    ensures { result ≡ spec.iota c a }
{
    let mut b = a;
    b[0] = b[0] ^ c;
    b
}

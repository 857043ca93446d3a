// Keccak-f[1600] with six lanes kept inverted between the rounds: chi then takes five inversions, not 25.
// A state is 25 lanes of 64 bits; lane (x, y) stands at x + 5 * y.
#![tactic(auto)]

ghost use Rattle.std.specs.Prelude.{◌≡◌};
ghost use Rattle.keccak_complement.specs.Complement.{complement, complement_before_chi};
ghost use Rattle.keccak_steps.specs.Permutation.{chi};

// The state with the six lanes inverted. It is its own inverse.
pub fn complemented(a: [u64; 25]) -> [u64; 25]
    ensures { result ≡ complement a }
{
    [
        a[0], !a[1], !a[2], a[3], a[4], a[5], a[6], a[7], !a[8], a[9], a[10], a[11], !a[12], a[13],
        a[14], a[15], a[16], !a[17], a[18], a[19], !a[20], a[21], a[22], a[23], a[24],
    ]
}

// chi from the lanes that are inverted before it to those that are inverted after it.
pub fn chi_complemented(a: [u64; 25]) -> [u64; 25]
    ensures { result ≡ complement (chi (complement_before_chi a)) }
{
    let [
        a0,
        a1,
        a2,
        a3,
        a4,
        a5,
        a6,
        a7,
        a8,
        a9,
        a10,
        a11,
        a12,
        a13,
        a14,
        a15,
        a16,
        a17,
        a18,
        a19,
        a20,
        a21,
        a22,
        a23,
        a24,
    ] = a;
    [
        a0 ^ (a1 | a2),
        a1 ^ (!a2 | a3),
        a2 ^ (a3 & a4),
        a3 ^ (a4 | a0),
        a4 ^ (a0 & a1),
        a5 ^ (a6 | a7),
        a6 ^ (a7 & a8),
        a7 ^ (a8 | !a9),
        a8 ^ (a9 | a5),
        a9 ^ (a5 & a6),
        a10 ^ (a11 | a12),
        a11 ^ (a12 & a13),
        a12 ^ (!a13 & a14),
        !a13 ^ (a14 | a10),
        a14 ^ (a10 & a11),
        a15 ^ (a16 & a17),
        a16 ^ (a17 | a18),
        a17 ^ (!a18 | a19),
        !a18 ^ (a19 & a15),
        a19 ^ (a15 | a16),
        a20 ^ (!a21 & a22),
        !a21 ^ (a22 | a23),
        a22 ^ (a23 & a24),
        a23 ^ (a24 | a20),
        a24 ^ (a20 & a21),
    ]
}

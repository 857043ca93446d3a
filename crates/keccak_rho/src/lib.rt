// The step rho of Keccak-f[1600]: each lane rotated by its offset.
// A state is 25 lanes of 64 bits; lane (x, y) stands at x + 5 * y.
#![tactic(auto)]

ghost use Rattle.std.specs.Prelude.{◌≡◌, ◌<◌};
ghost use Rattle.keccak_rho.specs.Offsets.{published_offsets};
ghost use Rattle.keccak_steps.specs.Lanes.{rot};
ghost use Rattle.keccak_steps.specs.Permutation.{rho};

// The published rotation offsets of rho.
const OFFSETS: [u32; 25] = [
    0, 1, 62, 28, 27, 36, 44, 6, 55, 20, 3, 10, 43, 25, 39, 41, 45, 15, 21, 8, 18, 2, 61, 56, 14,
];

// The table is the published one.
pub fn rotation_offsets() -> [u32; 25]
    ensures { result ≡ published_offsets }
{
    OFFSETS
}

// The lane x rotated by n bits.
fn rotl(x: u64, n: u32) -> u64
    requires { n < 64 }
    ensures { result ≡ rot x n }
{
    if n == 0 {
        return x;
    }
    x << n | x >> (64 - n)
}

pub fn rho(a: [u64; 25]) -> [u64; 25]
    ensures { result ≡ rho a }
{
    [
        rotl(a[0], OFFSETS[0]),
        rotl(a[1], OFFSETS[1]),
        rotl(a[2], OFFSETS[2]),
        rotl(a[3], OFFSETS[3]),
        rotl(a[4], OFFSETS[4]),
        rotl(a[5], OFFSETS[5]),
        rotl(a[6], OFFSETS[6]),
        rotl(a[7], OFFSETS[7]),
        rotl(a[8], OFFSETS[8]),
        rotl(a[9], OFFSETS[9]),
        rotl(a[10], OFFSETS[10]),
        rotl(a[11], OFFSETS[11]),
        rotl(a[12], OFFSETS[12]),
        rotl(a[13], OFFSETS[13]),
        rotl(a[14], OFFSETS[14]),
        rotl(a[15], OFFSETS[15]),
        rotl(a[16], OFFSETS[16]),
        rotl(a[17], OFFSETS[17]),
        rotl(a[18], OFFSETS[18]),
        rotl(a[19], OFFSETS[19]),
        rotl(a[20], OFFSETS[20]),
        rotl(a[21], OFFSETS[21]),
        rotl(a[22], OFFSETS[22]),
        rotl(a[23], OFFSETS[23]),
        rotl(a[24], OFFSETS[24]),
    ]
}

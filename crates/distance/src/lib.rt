// The distance of two nodes, by its number of binary digits, and the bucket that it falls in.
#![tactic(auto)]

ghost use Rattle.std.specs.Prelude.{◌≡◌, length};
ghost use Rattle.std.specs.Int.Count.{count_leading_zeros};
ghost use Rattle.distance.specs.Distance.{distance, bit_length, in_bucket, home};

// The binary digits of the distance of two hashes: those below the first byte that differs, and those of that byte.
pub fn bit_length(a: &[u8], b: &[u8]) -> usize
    requires { (length a.now ≡ 32) × (length b.now ≡ 32) }
    ensures { result ≡ bit_length (distance a.now b.now) }
{
    for i in 0..32 {
        let x = a[i] ^ b[i];
        if x != 0 {
            return 8 * (32 - i) - zeros(x);
        }
    }
    0
}

fn zeros(x: u8) -> usize
    ensures { result ≡ count_leading_zeros 8 x }
{
    u8::leading_zeros(x) as usize
}

// Whether the distance of two hashes falls in the bucket with the number `i`.
pub fn falls_in(own: &[u8], i: usize, hash: &[u8]) -> bool
    requires { (length own.now ≡ 32) × (length hash.now ≡ 32) }
    ensures { result ≡ in_bucket i (distance own.now hash.now) }
{
    let bits = bit_length(own, hash);
    if bits == 0 {
        return false;
    }
    bits - 1 == i
}

// Whether the key's own bucket, in the table of the node with the hash `own`, has the number `i`.
pub fn in_bucket(own: &[u8], i: usize, key: &[u8]) -> bool
    requires { length own.now ≡ 32 }
    ensures { result ≡ home own.now i key.now }
{
    let hash = keccak::keccak256(key);
    falls_in(own, i, &hash)
}

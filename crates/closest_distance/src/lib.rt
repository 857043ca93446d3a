// The distance to a target, worked out once, and two of them compared.
#![tactic(auto)]

ghost use Rattle.std.specs.Prelude.{◌≡◌, leb};
ghost use Rattle.octets.specs.Octets.{number, big_endian};
ghost use Rattle.distance.specs.Distance.{distance};

// The distance of two hashes in 32 bytes. This is the one place where a closest call works out a distance to its target.
pub fn far(target: [u8; 32], hash: [u8; 32]) -> [u8; 32]
    ensures { result ≡ big_endian 32 (distance target hash) }
{
    let mut bytes = [0; 32];
    for i in 0..32 {
        bytes[i] = target[i] ^ hash[i];
    }
    bytes
}

// Whether the distance `a` is at most `b`.
pub fn not_farther(a: [u8; 32], b: [u8; 32]) -> bool
    ensures { result ≡ leb (number a) (number b) }
{
    a <= b
}

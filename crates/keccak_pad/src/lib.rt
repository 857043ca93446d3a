// The padding of Keccak-256: that of the original Keccak, with first padding byte 01 (not FIPS 202's SHA3-256).
#![tactic(auto)]

ghost use Rattle.std.specs.Prelude.{◌≡◌, ◌<◌, length};
ghost use Rattle.keccak_pad.specs.Padding.{rate, padded};

// How many bytes a block has.
pub const RATE: usize = 136;

// The last block: the rest of the message and its padding.
pub fn pad(tail: &[u8]) -> [u8; RATE]
    requires { length tail.now < rate }
    ensures { result ≡ padded tail.now }
{
    let n = tail.len();
    let mut block = [0; RATE];
    block[..n].copy_from_slice(tail);
    block[n] = 0x01;
    block[RATE - 1] |= 0x80;
    block
}

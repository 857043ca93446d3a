// Hashes published test vectors, and a byte pattern at lengths around the ends of blocks, and prints one hash a line.
// The file `stdout` has what an independent implementation gives (tests/keccak/vectors.py).
#![tactic(auto)]

ghost use Rattle.std.specs.Prelude.{◌≤◌, length};

// Byte i is 7 * i + 3, modulo 256.
fn pattern() -> [u8; 1280] {
    let mut bytes = [0u8; 1280];
    for (i, byte) in bytes.iter_mut().enumerate() {
        *byte = ((7 * i + 3) % 256) as u8;
    }
    bytes
}

// Prints a hash; what fails to be written is lost.
fn print(rt: &impl Print, message: &[u8]) {
    let _ = keccak_print::print_hash(rt, message);
}

// The hashes of the first `from` to `to` bytes.
fn print_prefixes(rt: &impl Print, bytes: &[u8], from: usize, to: usize)
    requires { to ≤ length bytes.now }
{
    for n in from..=to {
        print(rt, &bytes[0..n]);
    }
}

// The base point of secp256k1: the public key of the private key 1.
const KEY: [u8; 64] = [
    0x79, 0xbe, 0x66, 0x7e, 0xf9, 0xdc, 0xbb, 0xac, 0x55, 0xa0, 0x62, 0x95, 0xce, 0x87, 0x0b, 0x07,
    0x02, 0x9b, 0xfc, 0xdb, 0x2d, 0xce, 0x28, 0xd9, 0x59, 0xf2, 0x81, 0x5b, 0x16, 0xf8, 0x17, 0x98,
    0x48, 0x3a, 0xda, 0x77, 0x26, 0xa3, 0xc4, 0x65, 0x5d, 0xa4, 0xfb, 0xfc, 0x0e, 0x11, 0x08, 0xa8,
    0xfd, 0x17, 0xb4, 0x48, 0xa6, 0x85, 0x54, 0x19, 0x9c, 0x47, 0xd0, 0x8f, 0xfb, 0x10, 0xd4, 0xb8,
];

fn main(rt: HostRuntime) {
    print(&rt, b"");
    print(&rt, b"abc");
    print(&rt, b"The quick brown fox jumps over the lazy dog");
    print(&rt, &[0xa3u8; 200]);
    print(&rt, &KEY);
    let bytes = pattern();
    print_prefixes(&rt, &bytes, 63, 65);
    print_prefixes(&rt, &bytes, 134, 138);
    print_prefixes(&rt, &bytes, 270, 274);
    print_prefixes(&rt, &bytes, 1279, 1280);
}

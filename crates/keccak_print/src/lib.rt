// The Keccak-256 of a message, printed: for programs.
#![tactic(auto)]

use std::io;

// 64 hex digits and a line's end on standard output; `Ok` if all was written.
pub fn print_hash(rt: &impl Print, message: &[u8]) -> io::Result<()> {
    let hash = keccak::keccak256(message);
    let mut row = [0u8; 65];
    text::put_hex(&mut row, 0, &hash);
    row[64] = b'\n';
    rt.write_all(&row)
}

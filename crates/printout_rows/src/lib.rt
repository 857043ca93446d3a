// Rows of text: fields parted by tabs, written into lent bytes. Each function writes its text from index `at`, and returns the index after it.
#![tactic(auto)]

ghost use Rattle.std.specs.Prelude.{◌≡◌, ◌∷◌, ◌+◌, ◌≤◌, length};
ghost use Rattle.octets.specs.Octets.{store};
ghost use Rattle.text.specs.Decimals.{decimal};
ghost use Rattle.text.specs.Hex.{hex};
ghost use Rattle.text.specs.Rows.{row_end};
ghost use Rattle.printout_rows.specs.Rows.{key_text, ping_text};

use entry::PingState;

// A word with no tab before it: how a row begins.
pub fn put_word(out: &mut [u8], at: usize, word: &[u8]) -> usize
    requires { at + length word.now ≤ length out.old }
    ensures next { result ≡ at + length word.now }
    ensures bytes { out.new ≡ store out.old at word.now }
{
    octets::put_bytes(out, at, word);
    at + word.len()
}

// The end of a row.
pub fn put_end(out: &mut [u8], at: usize) -> usize
    requires { at + length row_end ≤ length out.old }
    ensures next { result ≡ at + length row_end }
    ensures bytes { out.new ≡ store out.old at row_end }
{
    out[at] = b'\n';
    at + 1
}

// A field that is a word.
pub fn word_field(out: &mut [u8], at: usize, word: &[u8]) -> usize
    requires { at + length (0x09 ∷ word.now) ≤ length out.old }
    ensures next { result ≡ at + length (0x09 ∷ word.now) }
    ensures bytes { out.new ≡ store out.old at (0x09 ∷ word.now) }
{
    out[at] = b'\t';
    put_word(out, at + 1, word)
}

// A field that is a decimal.
pub fn decimal_field(out: &mut [u8], at: usize, n: u64) -> usize
    requires { at + length (0x09 ∷ decimal n) ≤ length out.old }
    ensures next { result ≡ at + length (0x09 ∷ decimal n) }
    ensures bytes { out.new ≡ store out.old at (0x09 ∷ decimal n) }
{
    text::put_marked(out, at, b'\t', n)
}

// A field that is hex.
pub fn hex_field(out: &mut [u8], at: usize, bytes: &[u8]) -> usize
    requires { at + length (0x09 ∷ hex bytes.now) ≤ length out.old }
    ensures next { result ≡ at + length (0x09 ∷ hex bytes.now) }
    ensures bytes { out.new ≡ store out.old at (0x09 ∷ hex bytes.now) }
{
    out[at] = b'\t';
    text::put_hex(out, at + 1, bytes)
}

// A field that names a node by its key.
pub fn key_field(out: &mut [u8], at: usize, key: [u8; 64]) -> usize
    requires { at + length (0x09 ∷ key_text key) ≤ length out.old }
    ensures next { result ≡ at + length (0x09 ∷ key_text key) }
    ensures bytes { out.new ≡ store out.old at (0x09 ∷ key_text key) }
{
    hex_field(out, at, &key[0..8])
}

// A field that is a ping state.
pub fn ping_field(out: &mut [u8], at: usize, ping: PingState) -> usize
    requires { at + length (0x09 ∷ ping_text ping) ≤ length out.old }
    ensures next { result ≡ at + length (0x09 ∷ ping_text ping) }
    ensures bytes { out.new ≡ store out.old at (0x09 ∷ ping_text ping) }
{
    match ping {
        PingState::Quiet => word_field(out, at, b"quiet"),
        PingState::Out(t) => decimal_field(out, at, t.0),
    }
}

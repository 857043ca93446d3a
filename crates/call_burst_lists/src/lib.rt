// The lists of a burst: whether they fit together, and what they have for one datagram.
#![tactic(auto)]

ghost use Rattle.std.specs.Prelude.{◌≡◌, ◌+◌, ◌*◌, ◌≤◌, ◌<◌, eqb, length};
ghost use Rattle.octets.specs.Octets.{part};
ghost use Rattle.call_burst_lists.specs.Lists.{sum, is_whole, signer_in, address_in};
ghost use Rattle.call_burst_lists.specs.Times.{times_by, lent_by};

// Whether datagrams of these lengths take exactly `size` bytes. What is left falls, so no sum can wrap.
fn adds_up(lengths: &[usize], size: usize) -> bool
    ensures { result ≡ eqb (sum lengths.now) size }
{
    let mut left = size;
    for len in lengths {
        if left < *len {
            return false;
        }
        left -= *len;
    }
    left == 0
}

// How many milliseconds there are.
fn times_of(millis: &[u64], readings: &[u32], low: bool) -> usize
    ensures { result ≡ length (times_by low millis.now readings.now) }
{
    if low {
        return readings.len();
    }
    millis.len()
}

// Whether the lists make a burst; `room` is how many numbers the lent list has.
pub fn is_whole(
    buffer: &[u8],
    lengths: &[usize],
    signers: &[u8],
    addresses: &[u8],
    ports: &[u16],
    millis: &[u64],
    readings: &[u32],
    unix: &[u64],
    room: usize,
    low: bool,
) -> bool
    ensures { result ≡ is_whole (lent_by low buffer.now lengths.now signers.now addresses.now ports.now millis.now readings.now unix.now) room }
{
    let n = lengths.len();
    if 32 < n {
        return false;
    }
    if signers.len() != 64 * n {
        return false;
    }
    if addresses.len() != 17 * n {
        return false;
    }
    if ports.len() != n {
        return false;
    }
    if times_of(millis, readings, low) != n {
        return false;
    }
    if unix.len() != n {
        return false;
    }
    if room != n {
        return false;
    }
    adds_up(lengths, buffer.len())
}

// The key of datagram `i`; one of zeros is the empty key.
pub fn signer_at(signers: &[u8], i: usize) -> &[u8]
    requires { (64 * i + 64 ≤ length signers.now) × (i < 32) }
    ensures { result.now ≡ signer_in (part signers.now (64 * i) 64) }
{
    let zeros = [0u8; 64];
    let at = 64 * i;
    let end = at + 64;
    if octets::same_bytes(&signers[at..end], &zeros) {
        return &signers[at..at];
    }
    &signers[at..end]
}

// The address of datagram `i`'s sender; one of a wrong length is the empty address.
pub fn address_at(addresses: &[u8], i: usize) -> &[u8]
    requires { (17 * i + 17 ≤ length addresses.now) × (i < 32) }
    ensures { result.now ≡ address_in (part addresses.now (17 * i) 17) }
{
    let at = 17 * i;
    let len = addresses[at] as usize;
    let from = at + 1;
    if node::is_address_size(len) {
        let end = from + len;
        return &addresses[from..end];
    }
    &addresses[at..at]
}

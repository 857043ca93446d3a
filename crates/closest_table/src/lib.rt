// The entries nearest to a target, of a table in lent bytes.
#![tactic(auto)]

ghost use Rattle.std.specs.Prelude.{◌≡◌, true, ◌+◌, ◌*◌, ◌≤◌, length};
ghost use Rattle.distance.specs.Distance.{home};
ghost use Rattle.lists.specs.Lists.{all};
ghost use Rattle.bucket_model.specs.Contents.{entries_at};
ghost use Rattle.bucket_model.specs.Sound.{sound};
ghost use Rattle.table_model.specs.Layout.{own_of, clock_of, count_of, bucket_bytes, bucket_at, header_sound};
ghost use Rattle.closest_nearest.specs.Nearest.{holding, held, Ordered};
ghost use Rattle.closest_table.specs.Closest.{in_home, nothing, closest_in};
ghost use Rattle.closest_table.specs.Steps.{with_bucket, nearest_after, distances_after};

use bucket::Bucket;
use closest_nearest::{Near, Nearest};
use entry::Entry;
use node::MonotonicMillis;

// The nearest entries, or that the table isn't sound; and how many distances to the target were worked out.
#[derive(Clone, Copy)]
pub struct Chosen {
    pub sound: bool,
    pub nearest: Nearest,
    pub distances: usize,
}

// Whether the keys of `n` entries, whose bytes start at index `at`, are all in the bucket with this number.
fn all_home(bytes: &[u8], at: usize, n: usize, own: [u8; 32], number: usize) -> bool
    requires { (at + n * 143 ≤ length bytes.now) × (n ≤ 16) }
    ensures { result ≡ all (in_home own number) (entries_at bytes.now at n) }
{
    let mut home = true;
    for i in (0..n).rev() {
        let from = at + i * Entry::SIZE;
        let here = distance::in_bucket(&own, number, &bytes[from..from + 64]);
        home = here && home;
    }
    home
}

// What came of a bucket's entries: whether each key is in its own bucket, the nearest, with them put in, and how many distances to the target
// that took.
#[derive(Clone, Copy)]
pub struct Gathered {
    pub home: bool,
    pub nearest: Nearest,
    pub distances: usize,
}

// Puts in the `n` entries whose bytes start at index `at`.
fn gather(
    bytes: &[u8],
    at: usize,
    n: usize,
    own: [u8; 32],
    number: usize,
    target: [u8; 32],
    slot: usize,
    nearest: Nearest,
) -> Gathered
    requires { (at + n * 143 ≤ length bytes.now) × ((n ≤ 16) × Ordered nearest) }
    ensures home_value { result.home ≡ all (in_home own number) (entries_at bytes.now at n) }
    ensures nearest_value { result.nearest ≡ holding (with_bucket target slot (entries_at bytes.now at n) (held nearest)) }
    ensures distances_value { result.distances ≡ n }
{
    let mut best = nearest;
    let mut home = true;
    let mut distances = 0;
    for i in (0..n).rev() {
        let from = at + i * Entry::SIZE;
        let hash = keccak::keccak256(&bytes[from..from + 64]);
        let here = distance::falls_in(&own, number, &hash);
        home = here && home;
        let far = closest_distance::far(target, hash);
        distances += 1;
        best = best.insert(Near {
            slot,
            index: i,
            far,
        });
    }
    Gathered {
        home,
        nearest: best,
        distances,
    }
}

// Puts in the entries of the bucket in a slot; says whether the bucket, which has this number, is sound.
fn take_bucket(
    bytes: &[u8],
    slot: usize,
    own: [u8; 32],
    number: usize,
    clock: MonotonicMillis,
    target: [u8; 32],
    nearest: Nearest,
) -> Chosen
    requires { (512 + slot * 2862 + 2862 ≤ length bytes.now) × Ordered nearest }
    ensures sound_value { result.sound ≡ sound (home own number) clock.0 (bucket_bytes bytes.now slot) }
    ensures nearest_value { result.sound ≡ true → (result.nearest ≡ holding (with_bucket target slot (bucket_at bytes.now slot).entries (held nearest)))
        × (result.distances ≡ length (bucket_at bytes.now slot).entries) }
    ensures distances_bound { result.distances ≤ 16 }
{
    let at = table::HEADER_SIZE + slot * Bucket::SIZE;
    if !bucket_sound::settled(bytes, at, clock) {
        return Chosen {
            sound: false,
            nearest,
            distances: 0,
        };
    }
    let n = bytes[at] as usize;
    let m = bytes[at + 1] as usize;
    let line = all_home(bytes, at + Bucket::REPLACEMENTS_AT, m, own, number);
    let gathered = gather(bytes, at + 2, n, own, number, target, slot, nearest);
    let best = gathered.nearest;
    let sound = bucket_entry::both(gathered.home, line);
    Chosen {
        sound,
        nearest: best,
        distances: gathered.distances,
    }
}

// One bucket's turn: while fewer than sixteen distances are worked out its entries are put in; afterwards it is only tested.
fn visit(
    bytes: &[u8],
    slot: usize,
    own: [u8; 32],
    number: usize,
    clock: MonotonicMillis,
    target: [u8; 32],
    nearest: Nearest,
    gathered: usize,
) -> Chosen
    requires { (512 + slot * 2862 + 2862 ≤ length bytes.now) × Ordered nearest }
    ensures sound_value { result.sound ≡ sound (home own number) clock.0 (bucket_bytes bytes.now slot) }
    ensures nearest_value { result.sound ≡ true → (result.nearest ≡ holding (nearest_after gathered target slot (bucket_at bytes.now slot).entries (held nearest)))
        × (result.distances ≡ distances_after gathered (bucket_at bytes.now slot).entries) }
{
    if 16 <= gathered {
        let at = table::HEADER_SIZE + slot * Bucket::SIZE;
        let sound = bucket_sound::sound(bytes, at, &own, number, clock);
        return Chosen {
            sound,
            nearest,
            distances: gathered,
        };
    }
    let taken = take_bucket(bytes, slot, own, number, clock, target, nearest);
    let best = taken.nearest;
    Chosen {
        sound: taken.sound,
        nearest: best,
        distances: gathered + taken.distances,
    }
}

// The nearest of all buckets, of a table with a sound header; each bucket has its turn in the order in which they are taken.
fn choose(
    bytes: &[u8],
    count: usize,
    own: [u8; 32],
    clock: MonotonicMillis,
    target: [u8; 32],
) -> Chosen
    requires { (header_sound bytes.now ≡ true) × ((count ≡ count_of bytes.now) × ((own ≡ own_of bytes.now) × (clock.0 ≡ clock_of bytes.now))) }
    ensures { result ≡ closest_in bytes.now target }
{
    let order = closest_order::taking_order(own, target, count);
    let mut best = Nearest::none();
    let mut distances = 0;
    for k in 0..count {
        let number = order[k] as usize;
        let slot = number - (256 - count);
        let visited = visit(bytes, slot, own, number, clock, target, best, distances);
        if !visited.sound {
            return unsound();
        }
        best = visited.nearest;
        distances = visited.distances;
    }
    Chosen {
        sound: true,
        nearest: best,
        distances,
    }
}

// Nothing is chosen in a table that isn't sound.
fn unsound() -> Chosen
    ensures { result ≡ nothing }
{
    Chosen {
        sound: false,
        nearest: Nearest::none(),
        distances: 0,
    }
}

// The entries nearest to the target with this hash.
pub fn closest(bytes: &[u8], target: [u8; 32]) -> Chosen
    ensures { result ≡ closest_in bytes.now target }
{
    if !table::header_sound(bytes) {
        return unsound();
    }
    let own = table::own_hash(bytes);
    let clock = table::clock(bytes);
    let count = table::bucket_count(bytes);
    choose(bytes, count, own, clock, target)
}

// A bucket by value: its entries from head to tail, and its replacements in order.
#![tactic(auto)]

ghost use Rattle.std.specs.Prelude.{◌≡◌, [], ◌∷◌, ◌++◌, ◌+◌, ◌*◌, ◌≤◌, ◌<◌, ltb, length, get_or, set, position};
ghost use Rattle.octets.specs.Octets.{part, store};
ghost use Rattle.bucket_model.specs.Contents.{no_contents, entries_at, encode_entries, encode_list, encode_bucket, decode_bucket};
ghost use Rattle.bucket_model.specs.Rules.{is_of, free_entry};
ghost use Rattle.bucket.specs.Steps.{listed, Holds, remove_at, index_of, contents, Shows, InBounds, position_of};

use entry::Entry;

// Up to sixteen entries in order; what lies past `len` says nothing.
#[derive(Clone, Copy)]
pub struct EntryList {
    pub len: usize,
    pub items: [Entry; 16],
}

// Document 01's seats and waiting line.
#[derive(Clone, Copy)]
pub struct Bucket {
    pub entries: EntryList,
    pub replacements: EntryList,
}

// Where a node is held: in which list, at which index.
// kept: a match has three arms either way, and an Option nests two of them.
#[derive(Clone, Copy)]
pub enum Position {
    Absent,
    InEntries(usize),
    InReplacements(usize),
}

impl EntryList {
    pub fn empty() -> EntryList
        ensures { Holds result [] }
    {
        let e = Entry::empty();
        EntryList {
            len: 0,
            items: [e; 16],
        }
    }

    // `e` joins at the tail.
    pub fn push(self, e: Entry) -> EntryList
        requires { self.len < 16 }
        ensures { Holds result (listed self ++ (e ∷ [])) }
    {
        let mut l = self;
        l.items[l.len] = e;
        l.len += 1;
        l
    }

    // The entry at `i` goes, and those behind it move up.
    pub fn remove(self, i: usize) -> EntryList
        requires { (i < self.len) × (self.len ≤ 16) }
        ensures { Holds result (remove_at i (listed self)) }
    {
        let last = self.len - 1;
        let mut l = self;
        // kept: the library's `copy_within` calls memmove, and a host need not have it
        for k in i..last {
            let next = l.items[k + 1];
            l.items[k] = next;
        }
        l.len = last;
        l
    }

    // The entry at `i` goes, and `e` joins at the tail.
    pub fn to_tail(self, i: usize, e: Entry) -> EntryList
        requires { (i < self.len) × (self.len ≤ 16) }
        ensures { Holds result (remove_at i (listed self) ++ (e ∷ [])) }
    {
        self.remove(i).push(e)
    }

    // `e` stands where the entry at `i` stood.
    pub fn replace(self, i: usize, e: Entry) -> EntryList
        requires { (i < self.len) × (self.len ≤ 16) }
        ensures { Holds result (set (listed self) i e) }
    {
        let mut l = self;
        l.items[i] = e;
        l
    }

    // The index of the entry with this key, or the number of entries where none has it.
    pub fn find(self, key: &[u8]) -> usize
        requires { self.len ≤ 16 }
        ensures { result ≡ index_of (is_of key.now) (listed self) }
    {
        self.place(key).unwrap_or(self.len)
    }

    // The index of the first entry with this key.
    fn place(&self, key: &[u8]) -> Option<usize>
        requires { self.now.len ≤ 16 }
        ensures { result ≡ position (is_of key.now) (listed self.now) }
    {
        self.items[..self.len].iter().position(|e| has_key(e, key))
    }
}

fn has_key(e: &Entry, key: &[u8]) -> bool
    ensures { result ≡ is_of key.now e.now }
{
    octets::same_bytes(key, &e.key)
}

// The `n` entries whose bytes start at index `at`.
fn load_list(bytes: &[u8], at: usize, n: usize) -> EntryList
    requires { (at + n * 143 ≤ length bytes.now) × (n ≤ 16) }
    ensures { Holds result (entries_at bytes.now at n) }
{
    let mut l = EntryList::empty();
    for i in 0..n {
        l.items[i] = entry::load_entry(bytes, at + i * Entry::SIZE);
    }
    l.len = n;
    l
}

fn store_entries(bytes: &mut [u8], at: usize, l: EntryList)
    requires { (at + l.len * 143 ≤ length bytes.old) × (l.len ≤ 16) }
    ensures bytes_after { bytes.new ≡ store bytes.old at (encode_entries (listed l)) }
    ensures l_len { length (encode_entries (listed l)) ≡ l.len * 143 }
{
    for i in 0..l.len {
        entry::store_entry(bytes, at + i * Entry::SIZE, l.items[i]);
    }
}

// Writes the entries of `l` from index `at`, and zeros up to `cap` entries.
fn store_list(bytes: &mut [u8], at: usize, l: EntryList, cap: usize)
    requires { (at + cap * 143 ≤ length bytes.old) × ((l.len ≤ cap) × (cap ≤ 16)) }
    ensures bytes_after { bytes.new ≡ store bytes.old at (encode_list cap (listed l)) }
    ensures l_len { length (encode_list cap (listed l)) ≡ cap * 143 }
{
    store_entries(bytes, at, l);
    octets::put_zeros(bytes, at + l.len * Entry::SIZE, (cap - l.len) * Entry::SIZE);
}

impl Bucket {
    // "Sixteen seats and four waiting places are constants of the bucket."
    pub const ENTRIES: usize = 16;

    pub const REPLACEMENTS: usize = 4;

    // The bytes of a bucket.
    pub const SIZE: usize = 2862;

    // Where the first replacement stands in a bucket's bytes.
    pub const REPLACEMENTS_AT: usize = 2290;

    // Nothing held.
    pub fn fresh() -> Bucket
        ensures { Shows result no_contents }
    {
        let l = EntryList::empty();
        Bucket {
            entries: l,
            replacements: l,
        }
    }

    // Whether an entry is free.
    pub fn free_entry(self) -> bool
        requires { self.entries.len ≤ 16 }
        ensures { result ≡ free_entry (contents self) }
    {
        self.entries.len < Bucket::ENTRIES
    }

    // Where the node with this key is held.
    pub fn find(self, key: &[u8]) -> Position
        requires { InBounds self }
        ensures { result ≡ position_of key.now (contents self) }
    {
        let i = self.entries.find(key);
        if i < self.entries.len {
            return Position::InEntries(i);
        }
        let j = self.replacements.find(key);
        if j < self.replacements.len {
            return Position::InReplacements(j);
        }
        Position::Absent
    }

    // The bucket whose bytes start at index `at`, with counts within bounds.
    pub fn load(bytes: &[u8], at: usize) -> Bucket
        requires { (at + 2862 ≤ length bytes.now) × ((get_or bytes.now at 0 ≤ 16) × (get_or bytes.now (at + 1) 0 ≤ 4)) }
        ensures { Shows result (decode_bucket (part bytes.now at 2862)) }
    {
        let entries = bytes[at] as usize;
        let replacements = bytes[at + 1] as usize;
        let entries = load_list(bytes, at + 2, entries);
        let replacements = load_list(bytes, at + Bucket::REPLACEMENTS_AT, replacements);
        Bucket {
            entries,
            replacements,
        }
    }

    // Writes the byte form of the bucket from index `at`; no other byte changes.
    pub fn store(self, bytes: &mut [u8], at: usize)
        requires { (at + 2862 ≤ length bytes.old) × InBounds self }
        ensures bytes_after { bytes.new ≡ store bytes.old at (encode_bucket (contents self)) }
        ensures self_len { length (encode_bucket (contents self)) ≡ 2862 }
    {
        octets::put_byte(bytes, at, self.entries.len as u8);
        octets::put_byte(bytes, at + 1, self.replacements.len as u8);
        store_list(bytes, at + 2, self.entries, Bucket::ENTRIES);
        store_list(
            bytes,
            at + Bucket::REPLACEMENTS_AT,
            self.replacements,
            Bucket::REPLACEMENTS,
        );
    }
}

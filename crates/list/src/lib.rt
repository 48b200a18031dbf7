// The found flows in three lent slices: keys one after the other, counts, flags. It rests on layout.
#![tactic(auto)]

ghost use Rattle.std.specs.Prelude.{◌≡◌, ◌+◌, ◌*◌, ◌<◌, ◌≤◌, length, set};
ghost use Rattle.list.specs.Records.{key_at, same_bytes, appended, known_at};
ghost use Rattle.list.specs.Found.{list_of, FoundKept};

use layout::Layout;

// The found flows: keys one after the other, and for each a count and flags. Three slices and no Vec of records: `elderflute_open` and the calls of C after it
// lend them apart, with room for 2 N, and nothing here allocates. Of a flags byte bit 0 says that the count is known, bit 1 that the flow was handed over.
#[derive(Drop)]
pub struct Found<'a> {
    pub keys: &'a mut [u8],
    pub counts: &'a mut [u32],
    pub flags: &'a mut [u8],
}

// The key at position i of keys that stand one after the other.
pub fn key_at(l: Layout, keys: &[u8], i: usize) -> &[u8]
    requires { i * l.key + l.key ≤ length keys.now }
    ensures { result.now ≡ key_at l keys.now i }
{
    let a = i * l.key;
    let e = a + l.key;
    &keys[a..e]
}

// Whether the key at position i is this key.
pub fn key_is(l: Layout, keys: &[u8], i: usize, key: &[u8]) -> bool
    requires { (i * l.key + l.key ≤ length keys.now) × (length key.now ≡ l.key) }
    ensures { result ≡ same_bytes (key_at l keys.now i) key.now }
{
    key_at(l, keys, i) == key
}

// Makes the count of record i known. The keys are not needed for that.
pub fn set_count(i: usize, v: u32, counts: &mut [u32], flags: &mut [u8])
    requires { (i < length counts.old) × (i < length flags.old) }
    ensures { (counts.new ≡ set counts.old i v) × (flags.new ≡ known_at i flags.old) }
{
    counts[i] = v;
    flags[i] |= 1;
}

impl Found<'_> {
    // The key of record i.
    pub fn key(&self, l: Layout, i: usize) -> &[u8]
        requires { i * l.key + l.key ≤ length self.now.keys.now }
        ensures { result.now ≡ key_at l self.now.keys.now i }
    {
        key_at(l, self.keys, i)
    }

    // Writes a flow into record n, with no count.
    pub fn append(&mut self, l: Layout, n: usize, key: &[u8], flag: u8)
        requires { (length key.now ≡ l.key) × (n * l.key + l.key ≤ length self.old.keys.now) × (n < length self.old.counts.now) × (n < length self.old.flags.now) }
        ensures value { list_of self.new ≡ appended l n key.now flag (list_of self.old) }
        ensures kept { FoundKept self.new self.old }
    {
        let a = n * l.key;
        let e = a + l.key;
        fields::copy_in(&mut self.keys[a..e], key);
        self.counts[n] = 0;
        self.flags[n] = flag;
    }
}

// The found flows lent to be read. It stands beside the one above, since no type is over both kinds of loan.
#[derive(Clone, Copy)]
pub struct FoundRef<'a> {
    pub keys: &'a [u8],
    pub counts: &'a [u32],
    pub flags: &'a [u8],
}

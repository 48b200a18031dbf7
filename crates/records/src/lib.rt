// The found flows as a lent slice of records: taken apart into the three number slices that the session's calls work on, and put together again.
// It rests on list for how flows lie in number slices and on packet for a key's bytes. `read` and `put` alone touch an element.
#![tactic(auto)]

ghost use Rattle.std.specs.Prelude.{◌≡◌, ◌+◌, ◌*◌, ◌<◌, ◌≤◌, length, set};
ghost use Rattle.layout.specs.Sizes.{ipv4_layout};
ghost use Rattle.list.specs.Records.{records, key_at};
ghost use Rattle.list.specs.Found.{list_of, FoundKept};
ghost use Rattle.list.specs.Seen.{list_seen};
ghost use Rattle.packet.specs.Key.{key_from};
ghost use Rattle.records.specs.Record.{at, AllFit, Wide, flag_byte, stored, record_at, apart_upto, together_upto};

use list::{Found, FoundRef};
use packet::Key;

// A found flow. A count that is not known is kept as a number all the same, since taking the list apart and putting it together changes no byte of it:
// so known and count are two fields here, and no option.
#[derive(Clone, Copy)]
pub struct Record {
    pub key: Key,
    pub count: u32,
    pub known: bool,
    pub handed: bool,
}

// Record i. `read`, `put` and `length_of` say what a slice does in the words of specs/; theorems that docs/PROVED.md names speak of them.
pub fn read(list: &[Record], i: usize) -> Record
    requires { i < length list.now }
    ensures { result ≡ at list.now i }
{
    list[i]
}

// Puts a record at position i.
pub fn put(list: &mut [Record], i: usize, r: Record)
    requires { i < length list.old }
    ensures { list.new ≡ set list.old i r }
{
    list[i] = r;
}

// How many records there are. Each holds numbers that fit their types, since the slice is lent. That is proved by hand: of a slice of records that no code
// reads the check knows nothing more than its length, and reading each would cost a walk over the list.
pub fn length_of(list: &[Record]) -> usize
    ensures { (result ≡ length list.now) × AllFit list.now }
{
    list.len()
}

// ---- one record

// The flags of a record: bit 0 known, bit 1 handed.
fn flag_byte(known: bool, handed: bool) -> u8
    ensures { result ≡ flag_byte known handed }
{
    match (known, handed) {
        (true, true) => 3,
        (true, false) => 1,
        (false, true) => 2,
        (false, false) => 0,
    }
}

// Writes a record as number i of the number slices.
fn store(i: usize, r: Record, found: &mut Found<'_>)
    requires { (i * 13 + 13 ≤ length found.old.keys.now) × (i < length found.old.counts.now) × (i < length found.old.flags.now) }
    ensures value { list_of found.new ≡ stored i r (list_of found.old) }
    ensures kept { FoundKept found.new found.old }
{
    let bytes = <[u8; 13]>::from(r.key);
    let from = i * 13;
    found.keys[from..from + 13].copy_from_slice(&bytes);
    found.counts[i] = r.count;
    found.flags[i] = flag_byte(r.known, r.handed);
}

// The key at position i.
pub fn key_at(i: usize, keys: &[u8]) -> Key
    requires { i * 13 + 13 ≤ length keys.now }
    ensures { result ≡ key_from (key_at ipv4_layout keys.now i) }
{
    let from = i * 13;
    let mut bytes = [0u8; 13];
    bytes.copy_from_slice(&keys[from..from + 13]);
    Key::from(&bytes)
}

// Record i of the number slices.
fn load(i: usize, found: FoundRef<'_>) -> Record
    requires { (i * 13 + 13 ≤ length found.keys.now) × (i < length found.counts.now) × (i < length found.flags.now) }
    ensures { result ≡ record_at (list_seen found.entry) i }
{
    let flag = found.flags[i];
    Record {
        key: key_at(i, found.keys),
        count: found.counts[i],
        known: flag % 2 == 1,
        handed: flag / 2 % 2 == 1,
    }
}

// ---- all records

// Takes the first n records apart.
pub fn take_apart(list: &[Record], n: usize, keys: &mut [u8], counts: &mut [u32], flags: &mut [u8])
    requires { (n ≤ length list.now) × Wide n (records keys.old counts.old flags.old) }
    ensures { records keys.new counts.new flags.new
        ≡ apart_upto n list.now (records keys.old counts.old flags.old) }
{
    let mut found = Found {
        keys,
        counts,
        flags,
    };
    for i in 0..n {
        store(i, read(list, i), &mut found);
    }
}

// Puts the first n records together again.
pub fn put_back(list: &mut [Record], n: usize, keys: &[u8], counts: &[u32], flags: &[u8])
    requires { (n ≤ length list.old) × Wide n (records keys.now counts.now flags.now) }
    ensures { list.new
        ≡ together_upto n (records keys.now counts.now flags.now) list.old }
{
    let found = FoundRef {
        keys,
        counts,
        flags,
    };
    for i in 0..n {
        put(list, i, load(i, found));
    }
}

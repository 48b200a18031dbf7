// Whether a key is among the found flows: only the listed keys of its bucket are compared. The bucket comes from a flow's first two cells.
// It rests on list, on index and on hash, over any layout.
#![tactic(auto)]

ghost use Rattle.std.specs.Prelude.{◌≡◌, ◌*◌, ◌≤◌, length};
ghost use Rattle.hash.specs.Places.{Within};
ghost use Rattle.list.specs.Records.{is_listed};
ghost use Rattle.found.specs.Seen.{bucket, LeadsTo};

use hash::Cells;
use layout::Layout;

// The bucket of a flow in the index of listed flows.
pub fn bucket(at: Cells) -> usize
    requires { Within at.at 2 1536 }
    ensures { result ≡ Rattle.found.specs.Seen.bucket at.at }
{
    (at.at[0] * 384 + at.at[1]) % 8192
}

// Whether a key is among the first n. Only the keys of its bucket are compared, the last listed first.
pub fn is_found(l: Layout, n: usize, at: Cells, key: &[u8], keys: &[u8], seen: &[u16]) -> bool
    requires { Within at.at 2 1536 × (n ≤ 3072) × (n * l.key ≤ length keys.now) × (length key.now ≡ l.key)
        × LeadsTo l n keys.now key.now (bucket at.at) seen.now }
    ensures { result ≡ is_listed l n keys.now key.now }
{
    let mut next = index::first(seen, bucket(at));
    while let Some(i) = next {
        if list::key_is(l, keys, i, key) {
            return true;
        }
        next = index::earlier(seen, i);
    }
    false
}

// Peeling: a key is taken out of its cells and listed, from the lowest marked cell, while there is one.
// It rests on table for the cells, on found and index for listed keys, on list and on marks, over any layout.
#![tactic(auto)]

ghost use Rattle.std.specs.Prelude.{◌≡◌, ◌||◌, ◌*◌, ◌≤◌, length};
ghost use Rattle.hash.specs.Places.{Within};
ghost use Rattle.list.specs.Records.{is_listed};
ghost use Rattle.list.specs.Found.{list_of, FoundKept};
ghost use Rattle.table.specs.Table.{tab_of, TableKept, any_empty};
ghost use Rattle.found.specs.Seen.{bucket, LeadsTo};
ghost use Rattle.peeling.specs.Peel.{Fits, Steady, PeelRoom, peeled, peel_of, ended, peels_of};

use hash::{Cells, Placing};
use list::Found;
use table::Table;

// Table, list and index stay parameters, here, in handing and in settling: of `&mut` slices in a struct in a struct the check knows nothing afterwards.

// Whether a key cannot be peeled: it is among the first n, or one of its places has FlowCount 0.
fn is_damaged(
    p: Placing,
    n: usize,
    at: Cells,
    key: &[u8],
    table: &Table,
    found: &Found,
    seen: &[u16],
) -> bool
    requires { Within at.at 2 1536 × (n ≤ 3072) × (n * p.shape.layout.key ≤ length found.now.keys.now) × (length key.now ≡ p.shape.layout.key)
        × LeadsTo p.shape.layout n found.now.keys.now key.now (bucket at.at) seen.now × Within at.at p.shape.sizes.k (length table.now.flows.now) }
    ensures { result ≡ (is_listed p.shape.layout n found.now.keys.now key.now || any_empty at.at p.shape.sizes.k table.now.flows.now) }
{
    found::is_found(p.shape.layout, n, at, key, found.keys, seen)
        || table.any_empty(at, p.shape.sizes.k)
}

// One peel from the lowest mark, for any marks, where the list has room; n flows are listed. Whether a flow was taken out:
// none is where no cell is marked. 14 with the marked cell.
fn peel(
    p: Placing,
    n: usize,
    table: &mut Table,
    found: &mut Found,
    seen: &mut [u16],
) -> Result<bool, usize>
    requires { Fits p.shape.layout p.shape.sizes p.salt n (tab_of table.old) (list_of found.old) seen.old
        × PeelRoom p.shape.layout p.shape.sizes n (tab_of table.old) }
    ensures value { peeled result (tab_of table.new) (list_of found.new) seen.new
        ≡ peel_of p.shape.layout p.shape.sizes p.salt n (tab_of table.old) (list_of found.old) seen.old }
    ensures table_kept { TableKept table.new table.old }
    ensures found_kept { FoundKept found.new found.old }
{
    let l = p.shape.layout;
    let Some(c) = table.first_mark() else {
        return Ok(false);
    };
    if c >= p.shape.table_cells() {
        return Ok(false);
    }
    let key = table.key(l, c);
    let at = p.cells_of(key);
    if is_damaged(p, n, at, key, table, found, seen) {
        return Err(c);
    }
    found.append(l, n, key, 0);
    index::link(seen, found::bucket(at), n);
    table.take_out(p, at, found.key(l, n), n as u16);
    Ok(true)
}

// A damaged flowset, 14: the flows listed until then, and the marked cell.
#[derive(Clone, Copy)]
pub struct Damage {
    pub listed: usize,
    pub cell: usize,
}

// Peels while a cell is marked; the flows that are then listed. n flows are listed at first; marks and numbers are as the test of 8 has them,
// so that no peel finds the list full.
pub fn peels(
    p: Placing,
    n: usize,
    table: &mut Table,
    found: &mut Found,
    seen: &mut [u16],
) -> Result<usize, Damage>
    requires { Steady p.shape.layout p.shape.sizes p.salt n (tab_of table.old) (list_of found.old) seen.old }
    ensures value { ended result (tab_of table.new) (list_of found.new) seen.new
        ≡ peels_of p.shape.layout p.shape.sizes p.salt n (tab_of table.old) (list_of found.old) seen.old }
    ensures table_kept { TableKept table.new table.old }
    ensures found_kept { FoundKept found.new found.old }
{
    let mut listed = n;
    loop {
        match peel(p, listed, table, found, seen) {
            Ok(true) => listed += 1,
            Ok(false) => return Ok(listed),
            Err(cell) => return Err(Damage { listed, cell }),
        }
    }
}

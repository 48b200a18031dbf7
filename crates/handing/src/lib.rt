// Hand-over of one key to a session that passed the test of 8. It rests on filter, on list, on found for listed keys, and on table for taking a key out.
#![tactic(auto)]

ghost use Rattle.std.specs.Prelude.{◌≡◌, ◌*◌, ◌≤◌, length};
ghost use Rattle.laws.specs.Upto.{list_upto};
ghost use Rattle.layout.specs.Sizes.{table_cells, filter_bytes};
ghost use Rattle.hash.specs.Places.{cell_of};
ghost use Rattle.list.specs.Found.{list_of, FoundKept};
ghost use Rattle.table.specs.Table.{tab_of, TableKept};
ghost use Rattle.found.specs.Seen.{Covers};
ghost use Rattle.handing.specs.Hand.{answer_of, handing, hand_of, Hands, taken_by, twelve_by, error_number};

use hash::{Cells, Placing};
use list::Found;
use table::Table;

// Why a key is not taken out.
#[derive(Clone, Copy)]
pub enum HandError {
    NotInFilter,
    Listed,
    EmptyCell,
    TooMany,
}

impl HandError {
    // 01's number.
    pub fn number(self) -> u32
        ensures { result ≡ error_number self }
    {
        match self {
            HandError::NotInFilter => 9,
            HandError::Listed => 10,
            HandError::EmptyCell => 11,
            HandError::TooMany => 12,
        }
    }
}

// Whether a key is taken out, or why not; its cells are given. n flows are listed, `handed` of them handed over.
fn answer(
    p: Placing,
    n: usize,
    handed: usize,
    at: Cells,
    key: &[u8],
    filter: &[u8],
    table: &Table,
    found: &Found,
    seen: &[u16],
) -> Result<(), HandError>
    requires { (at.at ≡ list_upto 4 (cell_of p.shape.layout p.shape.sizes p.salt key.now)) × (length key.now ≡ p.shape.layout.key)
        × (length filter.now ≡ filter_bytes p.shape.sizes) × (length table.now.flows.now ≡ table_cells p.shape.layout p.shape.sizes)
        × (n * p.shape.layout.key ≤ length found.now.keys.now) × (n ≤ 3072)
        × Covers p.shape.layout p.shape.sizes p.salt n found.now.keys.now seen.now }
    ensures { result ≡ answer_of p.shape.layout p.shape.sizes p.salt n handed filter.now table.now.flows.now found.now.keys.now key.now }
{
    let sizes = p.shape.sizes;
    if filter::any_clear(filter, p.bits_of(key), sizes.kf) {
        return Err(HandError::NotInFilter);
    }
    if found::is_found(p.shape.layout, n, at, key, found.keys, seen) {
        return Err(HandError::Listed);
    }
    if table.any_empty(at, sizes.k) {
        return Err(HandError::EmptyCell);
    }
    if handed >= p.shape.table_cells() {
        return Err(HandError::TooMany);
    }
    Ok(())
}

// Hands a key over. n flows are listed, `handed` of them handed over.
pub fn hand(
    p: Placing,
    n: usize,
    handed: usize,
    key: &[u8],
    filter: &[u8],
    table: &mut Table,
    found: &mut Found,
    seen: &mut [u16],
) -> Result<(), HandError>
    requires { Hands p.shape.layout p.shape.sizes p.salt n handed key.now filter.now (tab_of table.old) (list_of found.old) seen.old }
    ensures value { handing result (tab_of table.new) (list_of found.new) seen.new
        ≡ hand_of p.shape.layout p.shape.sizes p.salt n key.now filter.now (tab_of table.old) (list_of found.old) seen.old }
    ensures table_kept { TableKept table.new table.old }
    ensures found_kept { FoundKept found.new found.old }
{
    let at = p.cells_of(key);
    answer(p, n, handed, at, key, filter, table, found, seen)?;
    found.append(p.shape.layout, n, key, 2);
    index::link(seen, found::bucket(at), n);
    table.take_out(p, at, key, n as u16);
    Ok(())
}

// The numbers of an answer, which parts and rounds add up: their definitions are cited there.

// How many flows more are listed after an answer.
pub fn taken_by(h: Result<(), HandError>) -> usize
    ensures { (result ≡ taken_by h) × (result ≤ 1) }
{
    match h {
        Ok(()) => 1,
        Err(_) => 0,
    }
}

// How many of the answers 12 that an exchange counts it is.
pub fn twelve_by(h: Result<(), HandError>) -> usize
    ensures { (result ≡ twelve_by h) × (result ≤ 1) }
{
    match h {
        Err(HandError::TooMany) => 1,
        _ => 0,
    }
}

// Settling: peeling while a cell is marked, then counting while a cell is ready. It rests on peeling and counting.
#![tactic(auto)]

ghost use Rattle.std.specs.Prelude.{◌≡◌, length};
ghost use Rattle.layout.specs.Sizes.{table_cells};
ghost use Rattle.list.specs.Found.{list_of, FoundKept};
ghost use Rattle.table.specs.Table.{tab_of, TableKept};
ghost use Rattle.peeling.specs.Peel.{Steady};
ghost use Rattle.settling.specs.Settle.{settled, settle_of};

use hash::Placing;
use list::Found;
use peeling::Damage;
use table::Table;

// Peels while a cell is marked, then counts while a cell is ready; the flows that are then listed. n flows are listed at first;
// marks and numbers are as the test of 8 has them.
pub fn settle_all(
    p: Placing,
    n: usize,
    table: &mut Table,
    packets: &mut [u32],
    list: &mut Found,
    seen: &mut [u16],
) -> Result<usize, Damage>
    requires { Steady p.shape.layout p.shape.sizes p.salt n (tab_of table.old) (list_of list.old) seen.old
        × (length packets.old ≡ table_cells p.shape.layout p.shape.sizes) }
    ensures value { settled result (tab_of table.new) packets.new (list_of list.new) seen.new
        ≡ settle_of p.shape.layout p.shape.sizes p.salt n (tab_of table.old) packets.old (list_of list.old) seen.old }
    ensures table_kept { TableKept table.new table.old }
    ensures list_kept { FoundKept list.new list.old }
{
    let listed = peeling::peels(p, n, table, list, seen)?;
    // lent under names of their own, so that a proof knows what they hold afterwards
    let flows = &mut *table.flows;
    let keys = &mut *list.keys;
    match counting::count_all(
        p,
        listed,
        flows,
        packets,
        table.unknowns,
        table.positions,
        keys,
        list.counts,
        list.flags,
    ) {
        Ok(()) => Ok(listed),
        Err(cell) => Err(Damage { listed, cell }),
    }
}

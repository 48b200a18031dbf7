// The room that is lent for a session, the numbers that go with it, and the test that its lengths are right.
// It rests on layout, on table and list for how cells and found flows lie in slices, and on test8 for the rest of the test.
#![tactic(auto)]

ghost use Rattle.std.specs.Prelude.{◌≡◌};
ghost use Rattle.list.specs.Seen.{list_seen};
ghost use Rattle.table.specs.Seen.{tab_seen};
ghost use Rattle.room.specs.Memory.{table_fits, list_fits, room_fits};
ghost use Rattle.room.specs.Seen.{memory_seen, room_with};

use layout::{Shape, Sizes};
use list::FoundRef;
use table::TableRef;

// What a session keeps by value: the image's sizes, salt and slot, and how many flows are listed.
#[derive(Clone, Copy)]
pub struct Session {
    pub sizes: Sizes,
    pub salt: u32,
    pub slot: u32,
    pub listed: usize,
}

// The room of a session lent to be read: the received filter, the cells, PacketCount for each, and the found flows.
#[derive(Clone, Copy)]
pub struct Room<'a> {
    pub filter: &'a [u8],
    pub table: TableRef<'a>,
    pub packets: &'a [u32],
    pub list: FoundRef<'a>,
}

impl<'a> Room<'a> {
    // The slices of a call as one value. They are parameters of their own here alone: a value of loans of several lifetimes is not covered by the check.
    pub fn new(
        filter: &'a [u8],
        xors: &'a [u8],
        flows: &'a [u16],
        packets: &'a [u32],
        unknowns: &'a [u16],
        positions: &'a [u16],
        marks: &'a [u64],
        keys: &'a [u8],
        counts: &'a [u32],
        flags: &'a [u8],
    ) -> Room<'a>
        ensures { result ≡ room_with filter.entry xors.entry flows.entry packets.entry unknowns.entry positions.entry marks.entry
            keys.entry counts.entry flags.entry }
    {
        Room {
            filter,
            table: TableRef {
                xors,
                flows,
                unknowns,
                positions,
                marks,
            },
            packets,
            list: FoundRef {
                keys,
                counts,
                flags,
            },
        }
    }
}

// Whether the cells' slices have the lengths that layout and sizes ask for.
#[tactic(auto, unfolding(crate::specs::Memory::table_fits))]
fn table_fits(s: Shape, table: TableRef<'_>) -> bool
    ensures { result ≡ table_fits s.layout s.sizes (tab_seen table.entry) }
{
    let cells = s.table_cells();
    table.xors.len() == cells * s.layout.key
        && table.flows.len() == cells
        && table.unknowns.len() == cells
        && table.positions.len() == cells
        && table.marks.len() == (cells + 63) / 64
}

// Whether the list has room for 2 N records, and no more.
#[tactic(auto, unfolding(crate::specs::Memory::list_fits))]
fn list_fits(s: Shape, list: FoundRef<'_>) -> bool
    ensures { result ≡ list_fits s.layout s.sizes (list_seen list.entry) }
{
    let most = 2 * s.table_cells();
    list.keys.len() == most * s.layout.key && list.counts.len() == most && list.flags.len() == most
}

// Whether all lent room has the length that layout and sizes ask for.
#[tactic(auto, unfolding(crate::specs::Memory::room_fits))]
pub fn fits(s: Shape, room: Room<'_>) -> bool
    ensures { result ≡ room_fits s.layout s.sizes (memory_seen room.entry) }
{
    room.filter.len() == s.filter_bytes()
        && room.packets.len() == s.table_cells()
        && table_fits(s, room.table)
        && list_fits(s, room.list)
}

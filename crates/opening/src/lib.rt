// Opening a session: an image is read, its filter and cells are copied into lent room, the list is cleared, and marks and numbers are set right.
// It rests on reading, on block for where a cell stands, on cell for the fields of a cell, on table for pure cells, and on room for the lengths.
#![tactic(auto)]

ghost use Rattle.std.specs.Prelude.{◌≡◌, ◌+◌, ◌*◌, ◌≤◌, length, replicate};
ghost use Rattle.layout.specs.Sizes.{Lays, table_cells, blocks, filter_bytes};
ghost use Rattle.reading.specs.Read.{filter_in};
ghost use Rattle.list.specs.Records.{records};
ghost use Rattle.list.specs.Found.{list_of, FoundKept};
ghost use Rattle.marks.specs.Marks.{words_for};
ghost use Rattle.table.specs.Table.{tab, tab_of, TableKept, Fit};
ghost use Rattle.room.specs.Memory.{memory, Rooms};
ghost use Rattle.opening.specs.Blocks.{fields, copied_cell, copied_block};
ghost use Rattle.opening.specs.Open.{xors_in, flows_in, packets_in, marks_of, opened_memory, opening, open_of, open_error_number, open_error_block};
ghost use Rattle.opening.specs.declared.OpenError.TheVariants.{Read};

use hash::Placing;
use layout::{Layout, Shape};
use list::Found;
use reading::ReadError;
use room::{Room, Session};
use table::Table;

// Why an image is not opened: it is not read, or the lent room has not the lengths that its sizes ask for.
#[derive(Clone, Copy)]
pub enum OpenError {
    Read(ReadError),
    BadRoom,
}

impl From<ReadError> for OpenError {
    ghost from_gives = { λ e r. r ≡ Read e };

    fn from(e: ReadError) -> OpenError {
        OpenError::Read(e)
    }
}

impl OpenError {
    // 01's number of the refusal.
    pub fn number(self) -> u32
        ensures { result ≡ open_error_number self }
    {
        match self {
            OpenError::Read(e) => e.number(),
            OpenError::BadRoom => 16,
        }
    }

    // The block that 01 names with it, 0 where it names none.
    pub fn block(self) -> usize
        ensures { result ≡ open_error_block self }
    {
        match self {
            OpenError::Read(e) => e.block(),
            OpenError::BadRoom => 0,
        }
    }
}

// ---- filter and cells

// Copies the payloads of the filter blocks. They are numbered and not chunked: the proof knows no element after `chunks_exact_mut`.
fn copy_filter(shape: Shape, image: &[u8], filter: &mut [u8])
    requires { (length image.now ≡ blocks shape.sizes * 512) × (length filter.old ≡ filter_bytes shape.sizes) }
    ensures { filter.new ≡ filter_in shape.sizes image.now }
{
    for n in 0..shape.sizes.f {
        let to = n * 480;
        let from = n * 512 + 16;
        fields::copy_in(&mut filter[to..to + 480], &image[from..from + 480]);
    }
}

// FlowXOR, FlowCount and PacketCount are three slices in these three functions and not one value: they lie in a table and beside it, and a value of
// loans would need a clause on the loans in each contract.

// Copies cell d of a payload to cell `first + d`.
fn copy_cell(
    shape: Shape,
    payload: &[u8],
    first: usize,
    d: usize,
    xors: &mut [u8],
    flows: &mut [u16],
    packets: &mut [u32],
)
    requires { (first ≤ 1536) × (d * shape.layout.cell + shape.layout.cell ≤ length payload.now) × ((first + d) * shape.layout.key + shape.layout.key ≤ length xors.old)
        × (first + d + 1 ≤ length flows.old) × (first + d + 1 ≤ length packets.old) }
    ensures { fields xors.new flows.new packets.new
        ≡ copied_cell shape.layout payload.now first d (fields xors.old flows.old packets.old) }
{
    let c = first + d;
    let to = c * shape.layout.key;
    let end = to + shape.layout.key;
    let from = d * shape.layout.cell;
    let stop = from + shape.layout.key;
    fields::copy_in(&mut xors[to..end], &payload[from..stop]);
    flows[c] = cell::flow_count(shape.layout, payload, d);
    packets[c] = cell::packet_count(shape.layout, payload, d);
}

// Copies the cells of one block's payload, the first of them to cell `first`.
fn copy_block(
    shape: Shape,
    payload: &[u8],
    first: usize,
    xors: &mut [u8],
    flows: &mut [u16],
    packets: &mut [u32],
)
    requires { (length payload.now ≡ 480) × (first ≤ 1536) × ((first + shape.layout.cells) * shape.layout.key ≤ length xors.old)
        × (first + shape.layout.cells ≤ length flows.old) × (first + shape.layout.cells ≤ length packets.old) }
    ensures { fields xors.new flows.new packets.new
        ≡ copied_block shape.layout payload.now first (fields xors.old flows.old packets.old) }
{
    for d in 0..shape.layout.cells {
        copy_cell(shape, payload, first, d, xors, flows, packets);
    }
}

// Copies the cells of all cell blocks.
fn copy_cells(shape: Shape, image: &[u8], xors: &mut [u8], flows: &mut [u16], packets: &mut [u32])
    requires { (length image.now ≡ blocks shape.sizes * 512) × (length xors.old ≡ table_cells shape.layout shape.sizes * shape.layout.key)
        × (length flows.old ≡ table_cells shape.layout shape.sizes) × (length packets.old ≡ table_cells shape.layout shape.sizes) }
    ensures { fields xors.new flows.new packets.new
        ≡ fields (xors_in shape.layout shape.sizes image.now) (flows_in shape.layout shape.sizes image.now)
        (packets_in shape.layout shape.sizes image.now) }
{
    for n in 0..shape.sizes.k * shape.sizes.q {
        let from = (shape.sizes.f + n) * 512 + 16;
        copy_block(
            shape,
            &image[from..from + 480],
            n * shape.layout.cells,
            xors,
            flows,
            packets,
        );
    }
}

// ---- marks

// Marks the pure cells, and no other bit.
fn mark_pure(p: Placing, table: &mut Table<'_>)
    requires { Fit p.shape.layout p.shape.sizes (tab_of table.old)
        × (table.old.marks.now ≡ replicate (words_for (table_cells p.shape.layout p.shape.sizes)) 0) }
    ensures value { tab_of table.new ≡ tab table.old.xors.now table.old.flows.now table.old.unknowns.now table.old.positions.now
        (marks_of p.shape.layout p.shape.sizes p.salt table.old.xors.now table.old.flows.now) }
    ensures kept { TableKept table.new table.old }
{
    let s = p.shape.part_cells();
    for c in 0..p.shape.table_cells() {
        let pure = table.is_pure(p, c / s, c);
        marks::put_mark(table.marks, c, pure);
    }
}

// ---- opening

// Fills the lent room from an image of these sizes.
fn fill(
    p: Placing,
    image: &[u8],
    filter: &mut [u8],
    table: &mut Table<'_>,
    packets: &mut [u32],
    list: &mut Found<'_>,
)
    requires { (length image.now ≡ blocks p.shape.sizes * 512)
        × Rooms p.shape.layout p.shape.sizes (memory filter.old (tab_of table.old) packets.old (list_of list.old)) }
    ensures value { memory filter.new (tab_of table.new) packets.new (list_of list.new)
        ≡ opened_memory p.shape.layout p.shape.sizes p.salt image.now }
    ensures kept { TableKept table.new table.old × FoundKept list.new list.old }
{
    copy_filter(p.shape, image, filter);
    copy_cells(p.shape, image, table.xors, table.flows, packets);
    table.unknowns.fill(0);
    table.positions.fill(0);
    list.keys.fill(0);
    list.counts.fill(0);
    list.flags.fill(0);
    table.marks.fill(0);
    mark_pure(p, table);
}

// Opens an image of any layout that is wanted of a slot. The slices stay parameters of their own, since the C interface lends them one by one.
pub fn open_in(
    l: Layout,
    image: &[u8],
    slot: u32,
    filter: &mut [u8],
    xors: &mut [u8],
    flows: &mut [u16],
    packets: &mut [u32],
    unknowns: &mut [u16],
    positions: &mut [u16],
    marks: &mut [u64],
    keys: &mut [u8],
    counts: &mut [u32],
    flags: &mut [u8],
) -> Result<Session, OpenError>
    requires { Lays l }
    ensures { opening result (memory filter.new
        (tab xors.new flows.new unknowns.new positions.new marks.new)
        packets.new (records keys.new counts.new flags.new))
        ≡ open_of l image.now slot (memory filter.old
        (tab xors.old flows.old unknowns.old positions.old marks.old)
        packets.old (records keys.old counts.old flags.old)) }
{
    let read = reading::read_in(l, image, slot)?;
    let shape = Shape {
        layout: l,
        sizes: read.sizes,
    };
    let room = Room::new(
        filter, xors, flows, packets, unknowns, positions, marks, keys, counts, flags,
    );
    if !room::fits(shape, room) {
        return Err(OpenError::BadRoom);
    }
    let mut table = Table {
        xors,
        flows,
        unknowns,
        positions,
        marks,
    };
    let mut list = Found {
        keys,
        counts,
        flags,
    };
    let p = Placing::new(shape, read.salt);
    fill(p, image, filter, &mut table, packets, &mut list);
    Ok(Session {
        sizes: read.sizes,
        salt: read.salt,
        slot,
        listed: 0,
    })
}

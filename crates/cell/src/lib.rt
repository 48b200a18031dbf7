// A cell in working memory: its fields, and what a packet does to it. It rests on fields, over any layout: the sizes have no part in it, so it asks a layout and no shape.
#![tactic(auto)]

ghost use Rattle.std.specs.Prelude.{◌≡◌, ◌+◌, ◌*◌, ◌≤◌, length};
ghost use Rattle.layout.specs.Sizes.{Lays};
ghost use Rattle.cell.specs.Cell.{InTable, flow_count_at, packet_count_at, with_key, add_flow, add_packet, take_at_place};

use layout::Layout;

// FlowCount of cell c.
#[tactic(auto, unfolding(crate::specs::Cell::flow_count_at))]
pub fn flow_count(l: Layout, cells: &[u8], c: usize) -> u16
    requires { Lays l × InTable l (length cells.now) c }
    ensures { result ≡ flow_count_at l cells.now c }
{
    fields::short_at(cells, c * l.cell + l.key + 1)
}

// PacketCount of cell c.
#[tactic(auto, unfolding(crate::specs::Cell::packet_count_at))]
pub fn packet_count(l: Layout, cells: &[u8], c: usize) -> u32
    requires { Lays l × InTable l (length cells.now) c }
    ensures { result ≡ packet_count_at l cells.now c }
{
    fields::long_at(cells, c * l.cell + l.key + 3)
}

// A new flow in cell c: its key, and 1 to FlowCount. A full counter would start again at 0: the caller refuses it.
fn add_flow(l: Layout, cells: &mut [u8], c: usize, key: &[u8])
    requires { Lays l × InTable l (length cells.old) c × (length key.now ≡ l.key) }
    ensures { cells.new ≡ add_flow l (with_key l cells.old c key.now) c }
{
    let at = c * l.cell + l.key + 1;
    fields::xor_at(cells, c * l.cell, key);
    let flows = fields::short_at(cells, at);
    fields::put_short(cells, at, flows.wrapping_add(1));
}

// A packet in cell c: 1 to PacketCount. A full counter would start again at 0: the caller refuses it.
fn add_packet(l: Layout, cells: &mut [u8], c: usize)
    requires { Lays l × InTable l (length cells.old) c }
    ensures { cells.new ≡ add_packet l cells.old c }
{
    let at = c * l.cell + l.key + 3;
    let packets = fields::long_at(cells, at);
    fields::put_long(cells, at, packets.wrapping_add(1));
}

// A packet of a new or an old flow in cell c.
#[tactic(auto, unfolding(crate::specs::Cell::take_at_place))]
pub fn take_in(l: Layout, cells: &mut [u8], c: usize, new: bool, key: &[u8])
    requires { Lays l × InTable l (length cells.old) c × (length key.now ≡ l.key) }
    ensures { cells.new ≡ take_at_place l new key.now c cells.old }
{
    if new {
        add_flow(l, cells, c, key);
    }
    add_packet(l, cells, c);
}

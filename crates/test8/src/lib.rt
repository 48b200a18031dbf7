// The test of 8: whether lent memory is a session, all of it worked out anew from cells and list, in one pass over each.
// It rests on list and marks, on hash for a flow's cells, on table for pure cells, and on found and index for listed flows.
#![tactic(auto)]

ghost use Rattle.std.specs.Prelude.{◌≡◌, ◌+◌, ◌-◌, ◌*◌, ◌<◌, ◌≤◌, ◌&&◌, length, not, if◌then◌else◌, ◌==◌, nat_eq, slice_index};
ghost use Rattle.laws.specs.Upto.{all_upto, number_upto};
ghost use Rattle.layout.specs.Sizes.{table_cells};
ghost use Rattle.list.specs.Records.{Room};
ghost use Rattle.list.specs.Seen.{list_seen};
ghost use Rattle.index.specs.Index.{Empty};
ghost use Rattle.marks.specs.Marks.{words_for, marked};
ghost use Rattle.table.specs.Table.{Fit, pure_at, open_in};
ghost use Rattle.table.specs.Seen.{tab_seen};
ghost use Rattle.hash.specs.Places.{Within};
ghost use Rattle.test8.specs.Given.{flag_set, renewed, one_more, mixed_in, noted, seen_upto};
ghost use Rattle.test8.specs.Test8.{over_listed, keys_repeat, zero_count, numbers_in, agrees, marks_right, rest_clear, is_session};

use hash::{Cells, Placing};
use list::FoundRef;
use table::TableRef;

// The bits of a record's flags: its count is known; it was handed over. They stay bits, since the C interface lends the byte.
pub const KNOWN: usize = 0;

pub const HANDED: usize = 1;

// Whether a bit of a record's flags is set.
#[tactic(auto, unfolding(laws::specs::Digit::digit))]
fn has_flag(flag: u8, bit: usize) -> bool
    requires { bit < 8 }
    ensures { result ≡ flag_set bit flag }
{
    (flag >> bit) % 2 == 1
}

// Whether a record has a known count that is 0.
fn is_zero_count(flag: u8, count: u32) -> bool
    ensures { result ≡ (flag_set 0 flag && count == 0) }
{
    has_flag(flag, KNOWN) && count == 0
}

// Whether one of the first n records has a known count that is 0.
fn any_zero_count(n: usize, list: FoundRef<'_>) -> bool
    requires { (n ≤ length list.counts.now) × (n ≤ length list.flags.now) }
    ensures { result ≡ zero_count n (list_seen list.entry) }
{
    (0..n).any(|i| is_zero_count(list.flags[i], list.counts[i]))
}

// How many of the first n records have a bit of their flags set. The bit is a number, since the clause promises for each of the 8.
pub fn flagged_in(n: usize, bit: usize, flags: &[u8]) -> usize
    requires { (n ≤ length flags.now) × (bit < 8) }
    ensures { (result ≡ number_upto n (λ i. flag_set bit (slice_index flags.now i))) × (result ≤ n) }
{
    flags[..n]
        .iter()
        .filter(|flag| has_flag(**flag, bit))
        .count()
}

// How many cells have FlowCount above 0.
pub fn open_in(flows: &[u16]) -> usize
    ensures { (result ≡ open_in (length flows.now) flows.now) × (result ≤ length flows.now) }
{
    flows.iter().filter(|flow| **flow > 0).count()
}

// Whether neither the flows handed over nor the peeled ones and the open cells are more than the cells.
fn numbers_in(n: usize, flows: &[u16], list: FoundRef<'_>) -> bool
    requires { (n ≤ length list.flags.now) × (n ≤ 3072) × (length flows.now ≤ 1536) }
    ensures { result ≡ numbers_in (length flows.now) n flows.now (list_seen list.entry) }
{
    let handed = flagged_in(n, HANDED, list.flags);
    handed <= flows.len() && n - handed + open_in(flows) <= flows.len()
}

// For each cell what is worked out anew: how many of its flows have no known count, and the XOR of their list positions.
// Two arrays, as the two numbers are lent in two slices, with which they are compared whole.
#[derive(Drop)]
struct CellNumbers {
    unknowns: [u16; 1536],
    positions: [u16; 1536],
}

impl CellNumbers {
    // Adds the flow at a list position to the two numbers of its first k places.
    fn add(&mut self, at: Cells, k: usize, position: u16)
        requires { (k ≤ 4) × Within at.at k 1536 }
        ensures { (self.new.unknowns ≡ renewed (one_more position) (λ i. slice_index at.at i) k self.old.unknowns)
            × (self.new.positions ≡ renewed (mixed_in position) (λ i. slice_index at.at i) k self.old.positions) }
    {
        for &c in &at.at[..k] {
            self.unknowns[c] = self.unknowns[c].wrapping_add(1);
            self.positions[c] ^= position;
        }
    }

    // The same where the flow's count is unknown.
    fn add_unknown(&mut self, at: Cells, k: usize, flag: u8, position: u16)
        requires { (k ≤ 4) × Within at.at k 1536 }
        ensures { (self.new.unknowns
            ≡ (if flag_set 0 flag then self.old.unknowns else renewed (one_more position) (λ i. slice_index at.at i) k self.old.unknowns))
            × (self.new.positions
            ≡ (if flag_set 0 flag then self.old.positions else renewed (mixed_in position) (λ i. slice_index at.at i) k self.old.positions)) }
    {
        if !has_flag(flag, KNOWN) {
            self.add(at, k, position);
        }
    }

    // Whether the two numbers of each cell are these.
    fn are_kept(&self, cells: usize, unknowns: &[u16], positions: &[u16]) -> bool
        requires { (cells ≤ 1536) × (length unknowns.now ≡ cells) × (length positions.now ≡ cells) }
        ensures { result ≡ (all_upto cells (λ c. nat_eq (slice_index unknowns.now c) (slice_index self.now.unknowns c))
            && all_upto cells (λ c. nat_eq (slice_index positions.now c) (slice_index self.now.positions c))) }
    {
        unknowns == &self.unknowns[..cells] && positions == &self.positions[..cells]
    }
}

// One pass over the first n flows, each placed once: whether keys repeat, each key noted in the index, and the two numbers of the cells.
fn note_list(
    p: Placing,
    n: usize,
    list: FoundRef<'_>,
    seen: &mut [u16],
    numbers: &mut CellNumbers,
) -> bool
    requires { (n ≤ 3072) × (n * p.shape.layout.key ≤ length list.keys.now) × (n ≤ length list.flags.now) × Empty seen.old }
    ensures { (result ≡ keys_repeat p.shape.layout n list.entry.keys.now)
        × (seen.new ≡ seen_upto p.shape.layout p.shape.sizes p.salt n list.entry.keys.now seen.old)
        × (numbers.new.unknowns ≡ noted p.shape.layout p.shape.sizes p.salt one_more n list.entry.keys.now list.entry.flags.now numbers.old.unknowns)
        × (numbers.new.positions ≡ noted p.shape.layout p.shape.sizes p.salt mixed_in n list.entry.keys.now list.entry.flags.now numbers.old.positions) }
{
    let l = p.shape.layout;
    let mut repeat = false;
    for i in 0..n {
        let a = i * l.key;
        let e = a + l.key;
        let at = p.cells_of(&list.keys[a..e]);
        let again = found::is_found(l, i, at, &list.keys[a..e], list.keys, seen);
        repeat = repeat || again;
        index::link(seen, found::bucket(at), i);
        numbers.add_unknown(at, p.shape.sizes.k, list.flags[i], i as u16);
    }
    repeat
}

// Whether the mark of cell c says if it is pure. Only a cell with FlowCount 1 is hashed.
fn mark_right(p: Placing, xors: &[u8], flows: &[u16], marks: &[u64], c: usize) -> bool
    requires { (length xors.now ≡ table_cells p.shape.layout p.shape.sizes * p.shape.layout.key)
        × (length flows.now ≡ table_cells p.shape.layout p.shape.sizes)
        × (length marks.now ≡ words_for (table_cells p.shape.layout p.shape.sizes)) × (c < table_cells p.shape.layout p.shape.sizes) }
    ensures { result ≡ agrees (marked marks.now c) (pure_at p.shape.layout p.shape.sizes p.salt xors.now flows.now c) }
{
    let part = c / p.shape.part_cells();
    marks::is_marked(marks, c) == table::is_pure(p, part, xors, flows, c)
}

// Whether the mark of every cell says if it is pure.
fn marks_right(p: Placing, xors: &[u8], flows: &[u16], marks: &[u64]) -> bool
    requires { (length xors.now ≡ table_cells p.shape.layout p.shape.sizes * p.shape.layout.key)
        × (length flows.now ≡ table_cells p.shape.layout p.shape.sizes)
        × (length marks.now ≡ words_for (table_cells p.shape.layout p.shape.sizes)) }
    ensures { result ≡ marks_right p.shape.layout p.shape.sizes p.salt xors.now flows.now marks.now }
{
    (0..flows.len()).all(|c| mark_right(p, xors, flows, marks, c))
}

// Whether no bit past the cells' is set.
fn rest_clear(cells: usize, marks: &[u64]) -> bool
    requires { (length marks.now ≡ words_for cells) × (cells ≤ 1536) }
    ensures { result ≡ rest_clear cells marks.now }
{
    let rest = marks.len() * 64 - cells;
    (0..rest).all(|j| !marks::is_marked(marks, cells + j))
}

// Whether counts, marks and numbers are what cells and list give, n flows being listed.
fn rest_right(
    p: Placing,
    n: usize,
    table: TableRef<'_>,
    list: FoundRef<'_>,
    numbers: &CellNumbers,
) -> bool
    requires { Fit p.shape.layout p.shape.sizes (tab_seen table)
        × Room p.shape.layout (2 * table_cells p.shape.layout p.shape.sizes) (list_seen list)
        × (n ≤ 2 * table_cells p.shape.layout p.shape.sizes) }
    ensures { result ≡ (not (zero_count n (list_seen list.entry))
        && (numbers_in (table_cells p.shape.layout p.shape.sizes) n table.entry.flows.now (list_seen list.entry)
        && (marks_right p.shape.layout p.shape.sizes p.salt table.entry.xors.now table.entry.flows.now table.entry.marks.now
        && (rest_clear (table_cells p.shape.layout p.shape.sizes) table.entry.marks.now
        && (all_upto (table_cells p.shape.layout p.shape.sizes) (λ c. nat_eq (slice_index table.entry.unknowns.now c) (slice_index numbers.now.unknowns c))
        && all_upto (table_cells p.shape.layout p.shape.sizes) (λ c. nat_eq (slice_index table.entry.positions.now c) (slice_index numbers.now.positions c))))))) }
{
    let cells = p.shape.table_cells();
    !any_zero_count(n, list)
        && numbers_in(n, table.flows, list)
        && marks_right(p, table.xors, table.flows, table.marks)
        && rest_clear(cells, table.marks)
        && numbers.are_kept(cells, table.unknowns, table.positions)
}

// Whether the lent memory is a session. The index gets each listed key, for the calls that then look keys up.
pub fn is_session_seen(
    p: Placing,
    n: usize,
    table: TableRef<'_>,
    list: FoundRef<'_>,
    seen: &mut [u16],
) -> bool
    requires { Fit p.shape.layout p.shape.sizes (tab_seen table)
        × Room p.shape.layout (2 * table_cells p.shape.layout p.shape.sizes) (list_seen list) × Empty seen.old }
    ensures { (result ≡ is_session p.shape.layout p.shape.sizes p.salt n (tab_seen table.entry) (list_seen list.entry))
        × (seen.new ≡ seen_upto p.shape.layout p.shape.sizes p.salt (if over_listed p.shape.layout p.shape.sizes n then 0 else n)
        list.entry.keys.now seen.old) }
{
    let cells = p.shape.table_cells();
    if n > 2 * cells {
        return false;
    }
    let mut numbers = CellNumbers {
        unknowns: [0; 1536],
        positions: [0; 1536],
    };
    let repeat = note_list(p, n, list, seen, &mut numbers);
    !repeat && rest_right(p, n, table, list, &numbers)
}

// Counting: the PacketCount of the lowest ready cell becomes the count of its one unknown flow, while there is such a cell.
// It rests on marks for the words of ready cells, on list, and on hash for a flow's cells, over any layout.
#![tactic(auto)]

ghost use Rattle.std.specs.Prelude.{◌≡◌, ◌*◌, ◌<◌, ◌≤◌, length, replicate, IfSome};
ghost use Rattle.hash.specs.Places.{Within};
ghost use Rattle.list.specs.Records.{records};
ghost use Rattle.counting.specs.Book.{
  book,
  book_of,
  TallyKept,
  Spans,
  ready_at,
  ready_upto,
  lowest_ready,
  any_less,
  told_at,
  told_each,
};
ghost use Rattle.counting.specs.Count.{Fits, counted, count_of, ended, counts_of};

use hash::{Cells, Placing};

// What counting changes, in lent slices: PacketCount, each cell's unknown flows and the XOR of their positions, and a bit per ready cell.
#[derive(Drop)]
pub struct Tally<'a> {
    pub packets: &'a mut [u32],
    pub unknowns: &'a mut [u16],
    pub positions: &'a mut [u16],
    pub ready: &'a mut [u64],
}

// Whether cell c is ready.
#[tactic(auto, unfolding(crate::specs::Book::ready_at))]
pub fn is_ready(flows: &[u16], unknowns: &[u16], c: usize) -> bool
    requires { (c < length flows.now) × (c < length unknowns.now) }
    ensures { result ≡ ready_at flows.now unknowns.now c }
{
    flows[c] == 0 && unknowns[c] == 1
}

impl Tally<'_> {
    // The same of its own numbers: lent by &self they stay as they are.
    fn is_ready(&self, flows: &[u16], c: usize) -> bool
        requires { (c < length flows.now) × (c < length self.now.unknowns.now) }
        ensures { result ≡ ready_at flows.now self.now.unknowns.now c }
    {
        is_ready(flows, self.unknowns, c)
    }

    // Sets the bits of the ready cells in words that are 0.
    fn find_ready(&mut self, flows: &[u16])
        requires { (self.old.ready.now ≡ replicate 24 0) × (length flows.now ≤ 1536) × (length self.old.unknowns.now ≡ length flows.now) }
        ensures value { book_of self.new
            ≡ book self.old.packets.now self.old.unknowns.now self.old.positions.now
            (ready_upto flows.now self.old.unknowns.now (length flows.now)) }
        ensures kept { TallyKept self.new self.old }
    {
        for c in 0..flows.len() {
            if self.is_ready(flows, c) {
                marks::put_mark(self.ready, c, true);
            }
        }
    }

    // The lowest ready cell.
    fn lowest_ready(&self, cells: usize) -> Option<usize>
        requires { (length self.now.ready.now ≡ 24) × (cells ≤ 1536) }
        ensures value { result ≡ lowest_ready cells self.now.ready.now }
        ensures inside { IfSome result (λ c. c < cells) }
    {
        marks::first_mark(self.ready).filter(|c| *c < cells)
    }

    // Whether one of the first k places has fewer packets than v.
    fn any_less(&self, at: Cells, k: usize, v: u32) -> bool
        requires { (k ≤ 4) × Within at.at k (length self.now.packets.now) }
        ensures { result ≡ any_less at.at k self.now.packets.now v }
    {
        at.at[..k].iter().any(|&c| self.packets[c] < v)
    }

    // Takes the v packets of the flow that is listed at a position out of its cell c, never below 0: a count step finds no less there.
    fn tell_one(&mut self, v: u32, position: u16, flows: &[u16], c: usize)
        requires { (c < length flows.now) × (c < length self.old.packets.now) × (c < length self.old.unknowns.now) × (c < length self.old.positions.now)
            × (c < length self.old.ready.now * 64) }
        ensures value { book_of self.new ≡ told_at v position flows.now c (book_of self.old) }
        ensures kept { TallyKept self.new self.old }
    {
        self.packets[c] = self.packets[c].saturating_sub(v);
        self.unknowns[c] = self.unknowns[c].saturating_sub(1);
        self.positions[c] ^= position;
        let on = self.is_ready(flows, c);
        marks::put_mark(self.ready, c, on);
    }

    // Takes them out of the first k places.
    fn tell_out(&mut self, v: u32, position: u16, flows: &[u16], at: Cells, k: usize)
        requires { (k ≤ 4) × Within at.at k (length flows.now) × Spans (length flows.now) flows.now (book_of self.old) }
        ensures value { book_of self.new ≡ told_each v position flows.now at.at k (book_of self.old) }
        ensures kept { TallyKept self.new self.old }
    {
        for &c in &at.at[..k] {
            self.tell_one(v, position, flows, c);
        }
    }

    // One count step from the lowest ready cell: whether there is one, and as an error one that is damaged. n flows are listed.
    // Their keys are lent to be read, so that the three slices are no `Found`.
    pub fn count_step(
        &mut self,
        p: Placing,
        n: usize,
        flows: &[u16],
        keys: &[u8],
        counts: &mut [u32],
        flags: &mut [u8],
    ) -> Result<bool, usize>
        requires { Fits p.shape.layout p.shape.sizes n flows.now (book_of self.old) (records keys.now counts.old flags.old) }
        ensures value { counted result (book_of self.new) (records keys.now counts.new flags.new)
            ≡ count_of p.shape.layout p.shape.sizes p.salt n flows.now (book_of self.old) (records keys.now counts.old flags.old) }
        ensures kept { TallyKept self.new self.old }
    {
        let Some(c) = self.lowest_ready(p.shape.table_cells()) else {
            return Ok(false);
        };
        let position = self.positions[c];
        let i = usize::from(position);
        let v = self.packets[c];
        if i >= n || v == 0 {
            return Err(c);
        }
        let at = p.cells_of(list::key_at(p.shape.layout, keys, i));
        if self.any_less(at, p.shape.sizes.k, v) {
            return Err(c);
        }
        self.tell_out(v, position, flows, at, p.shape.sizes.k);
        list::set_count(i, v, counts, flags);
        Ok(true)
    }
}

// Counts while a cell is ready, or to a damaged one. The ready cells are found once, and renewed at a flow's cells only. n flows are listed.
// packets, unknowns and positions come apart, since the caller lends two of them out of a `Table`.
pub fn count_all(
    p: Placing,
    n: usize,
    flows: &[u16],
    packets: &mut [u32],
    unknowns: &mut [u16],
    positions: &mut [u16],
    keys: &[u8],
    counts: &mut [u32],
    flags: &mut [u8],
) -> Result<(), usize>
    requires { Fits p.shape.layout p.shape.sizes n flows.now (book packets.old unknowns.old positions.old (replicate 24 0)) (records keys.now counts.old flags.old) }
    ensures { ended result packets.new unknowns.new positions.new (records keys.now counts.new flags.new)
        ≡ counts_of p.shape.layout p.shape.sizes p.salt n flows.now packets.old unknowns.old positions.old (records keys.now counts.old flags.old) }
{
    let mut ready = [0; 24];
    let mut tally = Tally {
        packets,
        unknowns,
        positions,
        ready: &mut ready,
    };
    tally.find_ready(flows);
    for _ in 0..n {
        if !tally.count_step(p, n, flows, keys, counts, flags)? {
            break;
        }
    }
    Ok(())
}

// The table of a session: whether a cell is pure, and a key taken out of its cells.
// It rests on marks, on fields for FlowXOR and on hash for a flow's cells, over any layout.
#![tactic(auto)]

ghost use Rattle.std.specs.Prelude.{◌≡◌, ◌<◌, ◌≤◌, length};
ghost use Rattle.laws.specs.Upto.{list_upto};
ghost use Rattle.marks.specs.Marks.{first_found};
ghost use Rattle.list.specs.Records.{key_at};
ghost use Rattle.hash.specs.Places.{cell_of, Within};
ghost use Rattle.table.specs.Table.{
  tab_of,
  TableKept,
  Fit,
  InPart,
  InBytes,
  pure_at,
  any_empty,
  taken_at,
  taken_out,
};

use hash::{Cells, Placing};
use layout::Layout;

// The cells of a session in lent slices: FlowXOR as a key's bytes for each, FlowCount, what is unknown there, and a mark. The slices stay apart, as C lends them;
// PacketCount is not among them, since `elderflute_hand_over` lends it to be read.
#[derive(Drop)]
pub struct Table<'a> {
    pub xors: &'a mut [u8],
    pub flows: &'a mut [u16],
    pub unknowns: &'a mut [u16],
    pub positions: &'a mut [u16],
    pub marks: &'a mut [u64],
}

// Whether cell c, which lies in part i, is pure. Only hash i can choose a cell there, so no other is worked out. Over slices, for a `TableRef` and a `Table` alike.
pub fn is_pure(p: Placing, i: usize, xors: &[u8], flows: &[u16], c: usize) -> bool
    requires { InPart p.shape.layout p.shape.sizes i c × InBytes p.shape.layout (length xors.now) c × (c < length flows.now) }
    ensures { result ≡ pure_at p.shape.layout p.shape.sizes p.salt xors.now flows.now c }
{
    flows[c] == 1 && p.cell_of(i, list::key_at(p.shape.layout, xors, c)) == c
}

impl Table<'_> {
    // The lowest marked cell, where one is marked.
    pub fn first_mark(&self) -> Option<usize>
        requires { length self.now.marks.now ≤ 256 }
        ensures { result ≡ first_found self.now.marks.now }
    {
        marks::first_mark(self.marks)
    }

    // FlowXOR of cell c, taken as a key.
    pub fn key(&self, l: Layout, c: usize) -> &[u8]
        requires { InBytes l (length self.now.xors.now) c }
        ensures { result.now ≡ key_at l self.now.xors.now c }
    {
        list::key_at(l, self.xors, c)
    }

    // Whether one of the first k places has FlowCount 0.
    pub fn any_empty(&self, at: Cells, k: usize) -> bool
        requires { (k ≤ 4) × Within at.at k (length self.now.flows.now) }
        ensures { result ≡ any_empty at.at k self.now.flows.now }
    {
        any_empty(at, k, self.flows)
    }

    // Whether cell c, which lies in part i, is pure.
    pub fn is_pure(&self, p: Placing, i: usize, c: usize) -> bool
        requires { InPart p.shape.layout p.shape.sizes i c × InBytes p.shape.layout (length self.now.xors.now) c × (c < length self.now.flows.now) }
        ensures { result ≡ pure_at p.shape.layout p.shape.sizes p.salt self.now.xors.now self.now.flows.now c }
    {
        is_pure(p, i, self.xors, self.flows, c)
    }

    // Takes a key that is listed at a position out of its cell c, which lies in part i.
    fn take_one(&mut self, p: Placing, key: &[u8], position: u16, i: usize, c: usize)
        requires { Fit p.shape.layout p.shape.sizes (tab_of self.old) × InPart p.shape.layout p.shape.sizes i c × (length key.now ≡ p.shape.layout.key) }
        ensures value { tab_of self.new ≡ taken_at p.shape.layout p.shape.sizes p.salt key.now position c (tab_of self.old) }
        ensures kept { TableKept self.new self.old }
    {
        fields::xor_at(self.xors, c * p.shape.layout.key, key);
        self.flows[c] = self.flows[c].saturating_sub(1);
        self.unknowns[c] = self.unknowns[c].wrapping_add(1);
        self.positions[c] ^= position;
        let pure = self.is_pure(p, i, c);
        marks::put_mark(self.marks, c, pure);
    }

    // Takes a key that is listed at a position out of its k cells.
    pub fn take_out(&mut self, p: Placing, at: Cells, key: &[u8], position: u16)
        requires { Fit p.shape.layout p.shape.sizes (tab_of self.old)
            × (at.at ≡ list_upto 4 (cell_of p.shape.layout p.shape.sizes p.salt key.now)) × (length key.now ≡ p.shape.layout.key) }
        ensures value { tab_of self.new ≡ taken_out p.shape.layout p.shape.sizes p.salt key.now position (tab_of self.old) }
        ensures kept { TableKept self.new self.old }
    {
        for i in 0..p.shape.sizes.k {
            self.take_one(p, key, position, i, at.at[i]);
        }
    }
}

// Whether one of the first k places has FlowCount 0.
pub fn any_empty(at: Cells, k: usize, flows: &[u16]) -> bool
    requires { (k ≤ 4) × Within at.at k (length flows.now) }
    ensures { result ≡ any_empty at.at k flows.now }
{
    (0..k).any(|i| flows[at.at[i]] == 0)
}

// The cells of a session lent to be read, beside the value above for the same reason as `FoundRef`.
#[derive(Clone, Copy)]
pub struct TableRef<'a> {
    pub xors: &'a [u8],
    pub flows: &'a [u16],
    pub unknowns: &'a [u16],
    pub positions: &'a [u16],
    pub marks: &'a [u64],
}

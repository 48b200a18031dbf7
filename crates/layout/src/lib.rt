// The sizes of a flowset and the layout of its blocks, as values that every definition and function above is over.
// A second layout (other key bytes, cell bytes, cells to a block, kinds) is another value, not another program. It rests on laws.
#![tactic(auto)]

ghost use Rattle.std.specs.Prelude.{◌≡◌, IfSome, is_some};
ghost use Rattle.layout.specs.Sizes.{
  in_range,
  Ranged,
  Lays,
  ipv4_layout,
  part_cells,
  table_cells,
  cell_bytes,
  filter_bits,
  filter_bytes,
  blocks,
};

// How keys and cells lie in bytes: a cell is its key, a zero byte, FlowCount in 2 and PacketCount in 4 bytes, then what a layout adds.
#[derive(Clone, Copy)]
pub struct Layout {
    // bytes of a key
    pub key: usize,
    // bytes of a cell
    pub cell: usize,
    // cells to a block
    pub cells: usize,
    // kind of a filter block: a byte of 01's format, which a second layout has others for, so that no enum names them
    pub filter: u8,
    // kind of a cell block
    pub table: u8,
}

// 01's kf, F, k and q.
#[derive(Clone, Copy, PartialEq, Eq)]
pub struct Sizes {
    pub kf: usize,
    pub f: usize,
    pub k: usize,
    pub q: usize,
}

// The layout of IPv4 keys.
pub fn ipv4() -> Layout
    ensures { result ≡ ipv4_layout }
{
    Layout {
        key: 13,
        cell: 20,
        cells: 24,
        filter: 1,
        table: 2,
    }
}

// Whether n is from low to high.
fn between(low: usize, n: usize, high: usize) -> bool
    ensures { result ≡ Rattle.layout.specs.Sizes.between low n high }
{
    low <= n && n <= high
}

// Whether every size is in its range.
#[tactic(auto, unfolding(crate::specs::Sizes::in_range))]
pub fn in_range(z: Sizes) -> bool
    ensures { result ≡ in_range z }
{
    between(1, z.kf, 8) && between(1, z.f, 16) && between(2, z.k, 4) && between(1, z.q, 16)
}

// What the sizes alone decide asks no layout.
impl Sizes {
    // The bits of the filter.
    #[tactic(auto, unfolding(crate::specs::Sizes::filter_bits))]
    pub fn filter_bits(self) -> usize
        requires { Ranged self }
        ensures { result ≡ filter_bits self }
    {
        3840 * self.f
    }

    // The bytes of the filter in working memory.
    #[tactic(auto, unfolding(crate::specs::Sizes::filter_bytes))]
    pub fn filter_bytes(self) -> usize
        requires { Ranged self }
        ensures { result ≡ filter_bytes self }
    {
        480 * self.f
    }

    // The blocks of an image.
    #[tactic(auto, unfolding(crate::specs::Sizes::blocks))]
    pub fn block_count(self) -> usize
        requires { Ranged self }
        ensures { result ≡ blocks self }
    {
        self.f + self.k * self.q
    }
}

// A layout that has room for what it lays out, and sizes that are in their ranges: what every number below is worked out from.
#[derive(Clone, Copy)]
pub struct Shape {
    pub layout: Layout,
    pub sizes: Sizes,
    pub ghost lays: { Lays layout },
    pub ghost ranged: { Ranged sizes },
}

impl Shape {
    // The shape of a layout and sizes, where the sizes are in their ranges.
    #[tactic(auto, using(crate::proofs::Ranges::ranged))]
    pub fn new(layout: Layout, sizes: Sizes) -> Option<Shape>
        requires { Lays layout }
        ensures test { is_some result ≡ in_range sizes }
        ensures parts { IfSome result (λ s. (s.layout ≡ layout) × (s.sizes ≡ sizes)) }
    {
        if in_range(sizes) {
            return Some(Shape { layout, sizes });
        }
        None
    }

    // The cells of a part, 01's s.
    #[tactic(auto, unfolding(crate::specs::Sizes::part_cells))]
    pub fn part_cells(self) -> usize
        ensures { result ≡ part_cells self.layout self.sizes }
    {
        self.layout.cells * self.sizes.q
    }

    // The cells of the table, 01's N.
    #[tactic(auto, unfolding(crate::specs::Sizes::table_cells))]
    pub fn table_cells(self) -> usize
        ensures { result ≡ table_cells self.layout self.sizes }
    {
        self.sizes.k * self.part_cells()
    }

    // The bytes of the cells in working memory.
    #[tactic(auto, unfolding(crate::specs::Sizes::cell_bytes))]
    pub fn cell_bytes(self) -> usize
        ensures { result ≡ cell_bytes self.layout self.sizes }
    {
        self.table_cells() * self.layout.cell
    }

    // What its sizes decide.
    pub fn filter_bits(self) -> usize
        ensures { result ≡ filter_bits self.sizes }
    {
        self.sizes.filter_bits()
    }

    pub fn filter_bytes(self) -> usize
        ensures { result ≡ filter_bytes self.sizes }
    {
        self.sizes.filter_bytes()
    }

    pub fn block_count(self) -> usize
        ensures { result ≡ blocks self.sizes }
    {
        self.sizes.block_count()
    }
}

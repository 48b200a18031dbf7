// FNV-1a of 32 bits and the places it chooses: a flow's cells and filter bits. It rests on layout and laws.
// Four chains, or eight, run beside each other, over one key or over a slice each, since one chain alone waits for its multiply at every byte.
#![tactic(auto)]

ghost use Rattle.std.specs.Prelude.{◌≡◌, ◌∷◌, [], ◌+◌, ◌*◌, ◌≤◌, ◌<◌, length, slice_index};
ghost use Rattle.laws.specs.BigEndian.{bytes_of};
ghost use Rattle.laws.specs.Upto.{list_upto};
ghost use Rattle.layout.specs.Sizes.{Ranged};
ghost use Rattle.hash.specs.Fnv.{step, absorb, basis, fnv};
ghost use Rattle.hash.specs.Salted.{hash_after, after_salt};
ghost use Rattle.hash.specs.Places.{cell_of, bits_of};

use layout::{Shape, Sizes};

const BASIS: u32 = 2166136261;

const PRIME: u32 = 16777619;

// The hash's state: a value that takes one byte and gives the next state.
#[derive(Clone, Copy)]
pub struct Fnv {
    pub state: u32,
}

impl Fnv {
    pub fn new() -> Fnv
        ensures { result.state ≡ basis }
    {
        Fnv { state: BASIS }
    }

    #[tactic(auto, unfolding(crate::specs::Fnv::step))]
    pub fn byte(self, b: u8) -> Fnv
        ensures { result.state ≡ step self.state b }
    {
        Fnv {
            state: (self.state ^ u32::from(b)).wrapping_mul(PRIME),
        }
    }

    // The four bytes of a number, high first.
    pub fn word(self, x: u32) -> Fnv
        ensures { result.state ≡ absorb self.state (bytes_of 4 x) }
    {
        self.bytes(&x.to_be_bytes())
    }

    pub fn bytes(self, s: &[u8]) -> Fnv
        ensures { result.state ≡ absorb self.state s.now }
    {
        let mut f = self;
        for &b in s {
            f = f.byte(b);
        }
        f
    }
}

// ---- chains beside each other, each kept as its state

// Each chain takes a byte of its own.
fn step_each<const N: usize>(states: [u32; N], bytes: [u8; N]) -> [u32; N]
    ensures { result ≡ list_upto N (λ i. step (slice_index states.entry i) (slice_index bytes.entry i)) }
{
    let mut next = [0; N];
    for i in 0..N {
        let chain = Fnv { state: states[i] };
        next[i] = chain.byte(bytes[i]).state;
    }
    next
}

// Each chain takes the same byte. Four are left as `step_each` has them: the compiler then steps them one by one, which waits less than a multiply of four
// lanes. Eight are not: it would make one word of eight equal bytes and take that apart again at each step.
fn step_all<const N: usize>(states: [u32; N], b: u8) -> [u32; N]
    ensures { result ≡ list_upto N (λ i. step (slice_index states.entry i) b) }
{
    if N <= 4 {
        return step_each(states, [b; N]);
    }
    let mut next = [0; N];
    for i in 0..N {
        let chain = Fnv { state: states[i] };
        next[i] = chain.byte(b).state;
    }
    next
}

// FNV-1a of four slices of one length.
pub fn fnv_of_four(a: &[u8], b: &[u8], c: &[u8], d: &[u8]) -> [u32; 4]
    requires { (length b.now ≡ length a.now) × (length c.now ≡ length a.now) × (length d.now ≡ length a.now) }
    ensures { result ≡ fnv a.now ∷ fnv b.now ∷ fnv c.now ∷ fnv d.now ∷ [] }
{
    let mut f = [BASIS; 4];
    for i in 0..a.len() {
        let next = step_each(f, [a[i], b[i], c[i], d[i]]);
        f = next;
    }
    f
}

// ---- places, in the board group's order of work (02 c): salt and role once, then for each place the index, then the key

// The states after salt and role, which a call makes once and hands on: the filter bits' hashes go on from one, the cells' from the other.
#[derive(Clone, Copy)]
pub struct Salted {
    pub filter: Fnv,
    pub cells: Fnv,
}

pub fn after_salt(salt: u32) -> Salted
    ensures { result ≡ after_salt salt }
{
    let f = Fnv::new().word(salt);
    Salted {
        filter: f.byte(0x46),
        cells: f.byte(0x43),
    }
}

// Then the index: one state goes on as N chains, of the indices from 0 on.
fn indexed<const N: usize>(f: Fnv) -> [u32; N]
    requires { N ≤ 8 }
    ensures { result ≡ list_upto N (λ i. step f.state i) }
{
    let mut states = [0; N];
    for i in 0..N {
        states[i] = f.byte(i as u8).state;
    }
    states
}

// Then the key: its hashes for the first N indices.
fn hashes<const N: usize>(f: Fnv, key: &[u8]) -> [u32; N]
    requires { N ≤ 8 }
    ensures { result ≡ list_upto N (λ i. hash_after f.state i key.now) }
{
    let mut states = indexed::<N>(f);
    for &b in key {
        let next = step_all(states, b);
        states = next;
    }
    states
}

// The place of a hash among n.
#[tactic(auto, unfolding(crate::specs::Fnv::place))]
pub fn place(hash: u32, n: u32) -> u32
    ensures { result ≡ Rattle.hash.specs.Fnv.place hash n }
{
    (u64::from(hash) * u64::from(n) / 4294967296) as u32
}

// The places of hashes among n.
fn places<const N: usize>(hashes: [u32; N], n: u32) -> [usize; N]
    ensures { result ≡ list_upto N (λ i. Rattle.hash.specs.Fnv.place (slice_index hashes.entry i) n) }
{
    let mut at = [0; N];
    for i in 0..N {
        at[i] = place(hashes[i], n) as usize;
    }
    at
}

// A flow's cells: the first k of four.
#[derive(Clone, Copy)]
pub struct Cells {
    pub at: [usize; 4],
}

// A flow's filter bits: the first kf of eight.
#[derive(Clone, Copy)]
pub struct Bits {
    pub at: [usize; 8],
}

// The filter bits of a key, which ask no layout. Where kf is at most 4 the other four hashes are not worked out.
pub fn bits_of(z: Sizes, salt: u32, after: Salted, key: &[u8]) -> Bits
    requires { Ranged z × (after ≡ after_salt salt) }
    ensures { result.at ≡ bits_of z salt key.now }
{
    let n = z.filter_bits() as u32;
    if z.kf <= 4 {
        let [a, b, c, d] = places(hashes::<4>(after.filter, key), n);
        return Bits {
            at: [a, b, c, d, 0, 0, 0, 0],
        };
    }
    Bits {
        at: places(hashes::<8>(after.filter, key), n),
    }
}

// What places a flow: layout, sizes and salt, and the states after the salt.
#[derive(Clone, Copy)]
pub struct Placing {
    pub shape: Shape,
    pub salt: u32,
    pub after: Salted,
    pub ghost salted: { after ≡ after_salt salt },
}

impl Placing {
    pub fn new(shape: Shape, salt: u32) -> Placing
        ensures { (result.shape ≡ shape) × (result.salt ≡ salt) }
    {
        Placing {
            shape,
            salt,
            after: after_salt(salt),
        }
    }

    // The one cell that index i chooses for a key.
    pub fn cell_of(self, i: usize, key: &[u8]) -> usize
        requires { i < self.shape.sizes.k }
        ensures { result ≡ cell_of self.shape.layout self.shape.sizes self.salt key.now i }
    {
        let s = self.shape.part_cells();
        let f = self.after.cells.byte(i as u8).bytes(key);
        i * s + place(f.state, s as u32) as usize
    }

    // The cells of a key.
    pub fn cells_of(self, key: &[u8]) -> Cells
        ensures { result.at ≡ list_upto 4 (cell_of self.shape.layout self.shape.sizes self.salt key.now) }
    {
        let s = self.shape.part_cells();
        let [a, b, c, d] = places(hashes::<4>(self.after.cells, key), s as u32);
        Cells {
            at: [a, s + b, 2 * s + c, 3 * s + d],
        }
    }

    // The filter bits of a key.
    pub fn bits_of(self, key: &[u8]) -> Bits
        ensures { result.at ≡ bits_of self.shape.sizes self.salt key.now }
    {
        bits_of(self.shape.sizes, self.salt, self.after, key)
    }
}

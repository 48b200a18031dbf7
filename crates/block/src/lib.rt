// A block of an image as bytes: what sealing and reading have in common. It rests on layout and hash.
#![tactic(auto)]

ghost use Rattle.std.specs.Prelude.{◌≡◌, ◌*◌, ◌≤◌, length, take};
ghost use Rattle.layout.specs.Sizes.{Lays};
ghost use Rattle.hash.specs.Fnv.{fnv};
ghost use Rattle.block.specs.Block.{zero_bytes};

use hash::Fnv;
use layout::Layout;

// The check that belongs at the end of a block: one chain of multiplies over its first 508 bytes.
pub fn check_of(b: &[u8]) -> u32
    requires { 508 ≤ length b.now }
    ensures { result ≡ fnv (take 508 b.now) }
{
    Fnv::new().bytes(&b[0..508]).state
}

// Whether the zero byte of each of n cells is zero.
pub fn zero_bytes(l: Layout, n: usize, cells: &[u8]) -> bool
    requires { Lays l × (n * l.cell ≤ length cells.now) }
    ensures { result ≡ zero_bytes l n cells.now }
{
    (0..n).all(|c| cells[c * l.cell + l.key] == 0)
}

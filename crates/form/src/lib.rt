// The form of a block: its kind, sizes, number and zero bytes. It rests on block, fields and layout.
#![tactic(auto)]

ghost use Rattle.std.specs.Prelude.{◌≡◌, length};
ghost use Rattle.layout.specs.Sizes.{Lays};
ghost use Rattle.form.specs.Form.{sizes_in, kind_of, cells_formed};

use layout::{Layout, Sizes};

// The sizes that a block names.
pub fn sizes_in(b: &[u8]) -> Sizes
    requires { length b.now ≡ 512 }
    ensures { result ≡ sizes_in b.now }
{
    Sizes {
        kf: usize::from(b[1]),
        f: usize::from(b[2]),
        k: usize::from(b[3]),
        q: usize::from(b[4]),
    }
}

// The kind of block n.
fn kind_of(l: Layout, z: Sizes, n: usize) -> u8
    ensures { result ≡ kind_of l z n }
{
    if n < z.f { l.filter } else { l.table }
}

// Whether the zero bytes of a cell block's payload are zero.
#[tactic(auto, unfolding(crate::specs::Form::cells_formed))]
fn cells_formed(l: Layout, payload: &[u8]) -> bool
    requires { Lays l × (length payload.now ≡ 480) }
    ensures { result ≡ cells_formed l payload.now }
{
    block::zero_bytes(l, l.cells, payload) && fields::is_zero(&payload[l.cells * l.cell..])
}

// Whether block n has its form, in an image of these sizes.
#[tactic(auto, unfolding(crate::specs::Form::formed))]
pub fn formed(l: Layout, z: Sizes, n: usize, b: &[u8]) -> bool
    requires { Lays l × (length b.now ≡ 512) }
    ensures { result ≡ Rattle.form.specs.Form.formed l z n b.now }
{
    b[0] == kind_of(l, z, n)
        && sizes_in(b) == z
        && b[5] == 0
        && usize::from(fields::short_at(b, 6)) == n
        && fields::is_zero(&b[496..508])
        && (n < z.f || cells_formed(l, &b[16..496]))
}

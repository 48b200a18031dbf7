// The flow filter: bits in bytes, tested and set by shift and mask. It rests on hash for the bits of a flow.
#![tactic(auto)]

ghost use Rattle.std.specs.Prelude.{◌≡◌, List, ℕ, ◌≤◌, ◌<◌, ◌/◌, length, get_or};
ghost use Rattle.filter.specs.Filter.{is_set, with_bit, any_clear, with_bits, InFilter};

use hash::Bits;

// Whether filter bit n is 1.
#[tactic(auto, unfolding(crate::specs::Filter::is_set))]
fn bit_is_set(filter: &[u8], n: usize) -> bool
    requires { n / 8 < length filter.now }
    ensures { result ≡ is_set filter.now n }
{
    filter[n / 8] & (128 >> (n % 8)) != 0
}

// Sets filter bit n.
#[tactic(auto, unfolding(crate::specs::Filter::with_bit))]
fn set_bit(filter: &mut [u8], n: usize)
    requires { n / 8 < length filter.old }
    ensures { filter.new ≡ with_bit filter.old n }
{
    filter[n / 8] |= 128 >> (n % 8);
}

// Whether one of the first kf bits is 0: the flow is new.
// The bits come with their number kf, here and below, since hash works out four or eight at once and sizes say how many count.
pub fn any_clear(filter: &[u8], bits: Bits, kf: usize) -> bool
    requires { (kf ≤ 8) × InFilter bits.at kf (length filter.now) }
    ensures { result ≡ any_clear filter.now bits.at kf }
{
    bits.at[..kf].iter().any(|n| !bit_is_set(filter, *n))
}

// Sets the first kf bits.
pub fn set_all(filter: &mut [u8], bits: Bits, kf: usize)
    requires { (kf ≤ 8) × InFilter bits.at kf (length filter.old) }
    ensures { filter.new ≡ with_bits filter.old bits.at kf }
{
    for n in &bits.at[..kf] {
        set_bit(filter, *n);
    }
}

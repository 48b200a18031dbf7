// How the settlings of an exchange end, and whether it is over after a round. It rests on peeling for how one settling ends.
#![tactic(auto)]

ghost use Rattle.std.specs.Prelude.{◌≡◌, Ok};
ghost use Rattle.ending.specs.Over.{ending_of, switch_number, is_over};

use peeling::Damage;

// The two switches of an exchange.
#[derive(Clone, Copy, PartialEq, Eq)]
pub enum Switch {
    A,
    B,
}

impl Switch {
    // 01's number for it.
    pub fn number(self) -> usize
        ensures { result ≡ switch_number self }
    {
        match self {
            Switch::A => 1,
            Switch::B => 2,
        }
    }
}

// A 14 that ends an exchange: the switch whose session it is in, and the marked or ready cell.
#[derive(Clone, Copy, PartialEq, Eq)]
pub struct Stopped {
    pub switch: Switch,
    pub cell: usize,
}

// How an exchange goes on where the settling of one switch's session ended so.
pub fn ending_of(switch: Switch, settled: Result<usize, Damage>) -> Result<(), Stopped>
    ensures { result ≡ ending_of switch settled }
{
    match settled {
        Ok(_) => Ok(()),
        Err(damage) => Err(Stopped {
            switch,
            cell: damage.cell,
        }),
    }
}

// Whether it is over after a round that ended so: so many flows were listed before it, and so many are after it.
#[tactic(auto, unfolding(crate::specs::Over::is_over))]
pub fn is_over(
    a: usize,
    b: usize,
    listed_a: usize,
    listed_b: usize,
    ending: Result<(), Stopped>,
) -> bool
    ensures { result ≡ is_over a b listed_a listed_b ending }
{
    match ending {
        Ok(()) => listed_a == a && listed_b == b,
        Err(_) => true,
    }
}

// The rounds of an exchange: each session hands its list to the other and both are settled, until a round in which neither list grew.
// It rests on parts for what is done to one session, and on ending for how it ends.
#![tactic(auto)]

ghost use Rattle.std.specs.Prelude.{◌≡◌, ℕ, ◌+◌, ◌≤◌};
ghost use Rattle.parts.specs.Parts.{switch_in, PartKept};
ghost use Rattle.rounds.specs.Rounds.{ended, settle_both, round, rounds, exchange_sides};
ghost use Rattle.rounds.specs.Meets.{pair_in, Meets};

use ending::{Stopped, Switch};
use parts::Part;

// Two parts and the count stay three parameters: of a struct of `&mut` parts the check has no rule for what is left behind. The count is lent, since a 14 keeps it too.

// Settles A, then B.
fn settle_both(a: &mut Part<'_>, b: &mut Part<'_>) -> Result<(), Stopped>
    requires { Meets a.old b.old }
    ensures value { (twelves : ℕ) → ended result (pair_in a.new b.new twelves)
        ≡ settle_both a.old.placing.shape.layout (switch_in a.old) (switch_in b.old) (pair_in a.old b.old twelves) }
    ensures kept_a { PartKept a.new a.old }
    ensures kept_b { PartKept b.new b.old }
{
    ending::ending_of(Switch::A, a.settle())?;
    ending::ending_of(Switch::B, b.settle())
}

// A round: A's list is handed over to B, then B's to A, and both are settled. The answers 12 are counted.
fn one_round(a: &mut Part<'_>, b: &mut Part<'_>, twelves: &mut usize) -> Result<(), Stopped>
    requires { Meets a.old b.old × (twelves.old ≤ 1073741824) }
    ensures value { ended result (pair_in a.new b.new twelves.new)
        ≡ round a.old.placing.shape.layout (switch_in a.old) a.old.filter.now (switch_in b.old) b.old.filter.now (pair_in a.old b.old twelves.old) }
    ensures kept_a { PartKept a.new a.old }
    ensures kept_b { PartKept b.new b.old }
    ensures few { twelves.new ≤ twelves.old + 6144 }
{
    *twelves += b.take_from(a);
    *twelves += a.take_from(b);
    settle_both(a, b)
}

// The rounds, at most so many.
fn all_rounds(
    a: &mut Part<'_>,
    b: &mut Part<'_>,
    most: usize,
    twelves: &mut usize,
) -> Result<(), Stopped>
    requires { Meets a.old b.old × (twelves.old ≡ 0) × (most ≤ 6145) }
    ensures value { ended result (pair_in a.new b.new twelves.new)
        ≡ rounds most a.old.placing.shape.layout (switch_in a.old) a.old.filter.now (switch_in b.old) b.old.filter.now (pair_in a.old b.old twelves.old) }
    ensures kept_a { PartKept a.new a.old }
    ensures kept_b { PartKept b.new b.old }
    ensures few { twelves.new ≤ 37754880 }
{
    for _ in 0..most {
        let listed_a = a.listed;
        let listed_b = b.listed;
        one_round(a, b, twelves)?;
        // a 14 has gone up by `?`
        if ending::is_over(listed_a, listed_b, a.listed, b.listed, Ok(())) {
            return Ok(());
        }
    }
    Ok(())
}

// Settles both, then goes through the rounds. The answers 12 are counted from none on, whatever stood in their count.
pub fn exchange_sides(
    a: &mut Part<'_>,
    b: &mut Part<'_>,
    twelves: &mut usize,
) -> Result<(), Stopped>
    requires { Meets a.old b.old }
    ensures value { ended result (pair_in a.new b.new twelves.new)
        ≡ exchange_sides a.old.placing.shape.layout (switch_in a.old) a.old.filter.now (switch_in b.old) b.old.filter.now (pair_in a.old b.old 0) }
    ensures kept_a { PartKept a.new a.old }
    ensures kept_b { PartKept b.new b.old }
    ensures few { twelves.new ≤ 37754880 }
{
    *twelves = 0;
    settle_both(a, b)?;
    let most = 2 * a.placing.shape.table_cells() + 2 * b.placing.shape.table_cells() + 1;
    all_rounds(a, b, most, twelves)
}

// Dealing visits to benches: singly, in bench order, round after round, to benches still short, until the visits are spent or none is short.
ghost use Rattle.std.specs.Prelude.{◌≡◌, length, replicate};
ghost use Rattle.allowance.specs.Dealing.{standing, one_round, deal as dealtTo};
ghost use Rattle.allowance.specs.Internal.Benches.{needs_in, grants_in, verdicts_in};

use crate::Bench;

// A round: one visit to each bench still short, while visits are left. Returns how many are left then.
fn round(benches: &mut [Bench], visits: usize) -> usize
    ensures dealt { standing (grants_in benches.new) result ≡ one_round (needs_in benches.old) (standing (grants_in benches.old) visits) }
    ensures needs_same { needs_in benches.new ≡ needs_in benches.old }
    ensures verdicts_same { verdicts_in benches.new ≡ verdicts_in benches.old }
{
    let mut left = visits;
    for bench in benches.iter_mut() {
        if left > 0 && bench.grant < bench.need {
            bench.grant += 1;
            left -= 1;
        }
    }
    left
}

// What each bench is granted of the allowance; a round in which nothing is spent finds no bench short.
// A while loop, since how much a round spends is known only after it.
pub(crate) fn deal(benches: &mut [Bench], allowance: usize)
    requires { grants_in benches.old ≡ replicate (length benches.old) 0 }
    ensures dealt { grants_in benches.new ≡ dealtTo (needs_in benches.old) allowance }
    ensures needs_same { needs_in benches.new ≡ needs_in benches.old }
    ensures verdicts_same { verdicts_in benches.new ≡ verdicts_in benches.old }
{
    let mut left = allowance;
    while 0 < left {
        let after = round(benches, left);
        if after == left {
            return;
        }
        left = after;
    }
}

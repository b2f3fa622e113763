// Where a branch goes among the transitions of a plan, and whether the plan takes it.
ghost use Rattle.std.specs.Prelude.{◌≡◌, ◌≤◌};
ghost use Rattle.sheet.specs.Plan.{transition_count};
ghost use Rattle.sheet.specs.WellFormed.{WellFormedPlan};
ghost use Rattle.branches.specs.Branches.{labelled, branch_in_range, insertion_place, branch_fits};
ghost use Rattle.branches.specs.Internal.Placing.{stands_at};

use sheet::Transition;
use sheet::plan::{action_count, state_count, transition, transition_count};

// The most transitions of a plan.
const MOST_TRANSITIONS: u16 = 2048;

// The lowest transition that does not come before the branch, or T: a binary search, since the transitions are in order. A while loop that halves an
// interval: the plan holds bytes, and no slice of transitions that the library could search.
pub(crate) fn place_of(plan: &[u8], branch: Transition) -> usize
    requires { WellFormedPlan plan.now }
    ensures { (result ≡ insertion_place plan.now (labelled branch)) × (result ≤ transition_count plan.now) }
{
    let mut low: usize = 0;
    let mut high = usize::from(transition_count(plan));
    while low < high {
        let middle = low + (high - low) / 2;
        let held = transition(plan, middle as u16);
        if held < branch {
            low = middle + 1;
        } else {
            high = middle;
        }
    }
    low
}

// Whether the branch stands at a place already.
fn stands_at(plan: &[u8], branch: Transition, place: usize) -> bool
    requires { place ≤ transition_count plan.now }
    ensures { result ≡ stands_at plan.now (labelled branch) place }
{
    place < usize::from(transition_count(plan)) && transition(plan, place as u16) == branch
}

// Its states and its action are the plan's.
fn in_range(plan: &[u8], branch: Transition) -> bool
    ensures { result ≡ branch_in_range plan.now (labelled branch) }
{
    branch.from.0 < state_count(plan)
        && branch.action.0 < action_count(plan)
        && branch.to.0 < state_count(plan)
}

// Whether the plan takes the branch, whose place is known. That the plan is well formed is asked of the bytes: a type for it would have to be made anew of
// the sheet's.
pub(crate) fn fits(plan: &[u8], branch: Transition, place: usize) -> bool
    requires well_formed_plan { WellFormedPlan plan.now }
    requires place_value { (place ≡ insertion_place plan.now (labelled branch)) × (place ≤ transition_count plan.now) }
    ensures { result ≡ branch_fits plan.now (labelled branch) }
{
    in_range(plan, branch)
        && !stands_at(plan, branch, place)
        && transition_count(plan) < MOST_TRANSITIONS
}

// What both calls do: the sheet is checked, the branch is looked at, and loops are searched for in the plan with it.
ghost use Rattle.std.specs.Prelude.{◌≡◌, ◌≤◌, length};
ghost use Rattle.sheet.specs.WellFormed.{WellFormedPlan};
ghost use Rattle.graph.specs.LoopTest.{loop_free};
ghost use Rattle.branches.specs.Branches.{labelled};
ghost use Rattle.branches.specs.Internal.Examining.{longest_plan, Looking, looked_of, Examined};

use crate::inserting::insert;
use crate::placing::{fits, place_of};
use crate::tagging::tag;
use crate::{Proposal, ProposeError};
use graph::Index;
use graph::searching::explore;
use sheet::reader::{check, plan_body};
use sheet::{Refusal, State, Transition};

// No loop can be reached from state 0 of a well-formed plan.
fn is_free(plan: &[u8]) -> bool
    requires { WellFormedPlan plan.now }
    ensures { result ≡ loop_free plan.now 0 }
{
    let mut index = Index::new();
    explore(plan, &mut index, State(0))
}

// The answer where the plan takes the branch: new is the plan with it.
fn look(sheet: &[u8], place: usize, new: &[u8]) -> Result<Proposal, ProposeError>
    requires { Looking sheet.now place new.now }
    ensures { result ≡ looked_of sheet.now place new.now }
{
    if !is_free(new) {
        return Err(ProposeError::Refused(Refusal::Loop));
    }
    Ok(Proposal {
        insertion: place as u16,
        length: sheet.len() + 3,
        tag: tag(sheet),
    })
}

// What propose answers. Where it is an offer, the plan with the branch is left at the front of room.
pub(crate) fn examine(
    sheet: &[u8],
    branch: Transition,
    room: &mut [u8],
) -> Result<Proposal, ProposeError>
    requires { longest_plan ≤ length room.old }
    ensures { Examined sheet.now (labelled branch) result room.new }
{
    check(sheet)?;
    let plan = plan_body(sheet);
    let place = place_of(plan, branch);
    if !fits(plan, branch, place) {
        return Err(ProposeError::BranchUnfit);
    }
    let n = insert(plan, branch, place, room);
    look(sheet, place, &room[..n])
}

// The public call that proposes: refusals 1 to 10, 40 and 12, else the proposal.
ghost use Rattle.branches.specs.Proposing.{Proposes};

use crate::examining::examine;
use crate::inserting::LONGEST_PLAN;
use crate::{Proposal, ProposeError};
use sheet::Transition;

// Where the transition would go, the length of the new file and the sheet's tag; or the refusal.
pub fn propose(sheet: &[u8], transition: Transition) -> Result<Proposal, ProposeError>
    ensures { Proposes sheet.now transition result }
{
    let mut room = [0u8; LONGEST_PLAN];
    examine(sheet, transition, &mut room)
}

// The public call that adds a branch: refusals 1 to 10, 40, 12, 41 and 22, else the new sheet.
ghost use Rattle.branches.specs.Committing.{Commits};
ghost use Rattle.branches.specs.Internal.Writing.{WritableWith, WritesWith};

use crate::examining::examine;
use crate::inserting::LONGEST_PLAN;
use crate::{CommitError, Proposal};
use sheet::reader::{actions_body, plan_body, rule_body};
use sheet::writer::head_of;
use sheet::{HEAD_LENGTH, Refusal, Transition};
use text::Writer;

// The sheet with another plan, at the front of out, if there is room for it.
fn write_with(sheet: &[u8], plan: &[u8], out: &mut [u8]) -> Result<usize, CommitError>
    requires { WritableWith sheet.now plan.now }
    ensures { WritesWith sheet.now plan.now out.old result out.new }
{
    let actions = actions_body(sheet);
    let rule = rule_body(sheet);
    if out.len() < HEAD_LENGTH + plan.len() + actions.len() + rule.len() {
        return Err(CommitError::Refused(Refusal::OutputShort));
    }
    let mut writer = Writer::new(out);
    writer.put(&head_of(plan.len() as u16, actions.len() as u16, rule.len() as u16));
    writer.put(plan);
    writer.put(actions);
    writer.put(rule);
    Ok(writer.place)
}

// The sheet with the transition, at the front of out, and its length; or the refusal, with out unchanged.
pub fn commit(
    sheet: &[u8],
    transition: Transition,
    proposal: Proposal,
    out: &mut [u8],
) -> Result<usize, CommitError>
    ensures { Commits sheet.now transition proposal out.old result out.new }
{
    let mut room = [0u8; LONGEST_PLAN];
    let fresh = examine(sheet, transition, &mut room)?;
    if proposal != fresh {
        return Err(CommitError::ProposalDiffers);
    }
    let n = plan_body(sheet).len() + 3;
    write_with(sheet, &room[..n], out)
}

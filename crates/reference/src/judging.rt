// The public call: refusals 1 to 10, then 13, else the word of the rule's meaning.
ghost use Rattle.reference.specs.Reference.{References};

use crate::sets::{Context, States};
use crate::table1::{Judge, meetings};
use sheet::kinds::NodeKind;
use sheet::plan::{action_count, state_count};
use sheet::reader::{actions_body, check, plan_body, rule_body};
use sheet::{Node, Refusal};

// Bit s is set exactly when state s is in the meaning of the rule.
pub fn reference(sheet: &[u8]) -> Result<u64, Refusal>
    ensures { References sheet.now result }
{
    check(sheet)?;
    let plan = plan_body(sheet);
    let states = state_count(plan);
    if 64 < states {
        return Err(Refusal::TooManyStates);
    }
    let judge = Judge {
        sheet,
        masks: meetings(actions_body(sheet), action_count(plan)),
        full: States::all(states),
    };
    let mut context = Context::new();
    context.restart(rule_body(sheet), Node(0), NodeKind::Greatest, judge.full);
    Ok(judge.evaluate(Node(0), &mut context).word())
}

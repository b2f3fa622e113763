// The plan with the branch, built in a buffer.
ghost use Rattle.std.specs.Prelude.{◌≡◌};
ghost use Rattle.text.specs.Placing.{Puts};
ghost use Rattle.branches.specs.Branches.{labelled, plan_with_at};
ghost use Rattle.branches.specs.Internal.Inserting.{head_with, transition_bytes, Inserting};

use sheet::Transition;
use sheet::plan::{action_count, state_count, transition_count};
use text::Writer;

// The longest plan: 4 bytes and 2,048 transitions of three.
pub(crate) const LONGEST_PLAN: usize = 6148;

// S, A, and T one more.
fn plan_head(plan: &[u8]) -> [u8; 4]
    ensures { result ≡ head_with plan.now }
{
    let [low, high, ..] = (usize::from(transition_count(plan)) + 1).to_le_bytes();
    [state_count(plan), action_count(plan), low, high]
}

// The three bytes of a transition.
fn bytes_of(t: Transition) -> [u8; 3]
    ensures { result ≡ transition_bytes (labelled t) }
{
    [t.from.0, t.action.0, t.to.0]
}

// The plan with the branch before transition place, at the front of room; its length.
pub(crate) fn insert(plan: &[u8], branch: Transition, place: usize, room: &mut [u8]) -> usize
    requires { Inserting plan.now place room.old }
    ensures { Puts (plan_with_at plan.now (labelled branch) place) result room.old room.new }
{
    let middle = 4 + 3 * place;
    let mut writer = Writer::new(room);
    writer.put(&plan_head(plan));
    writer.put(&plan[4..middle]);
    writer.put(&bytes_of(branch));
    writer.put(&plan[middle..]);
    writer.place
}

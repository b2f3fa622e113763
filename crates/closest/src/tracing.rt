// The public call: one shortest way from state 0 to a state, put together from its end.
ghost use Rattle.std.specs.Prelude.{◌≡◌, ◌++◌, ◌*◌, drop};
ghost use Rattle.sheet.specs.WellFormed.{WellFormedPlan};
ghost use Rattle.closest.specs.Tracing.{way_to, way_bytes, Traces};
ghost use Rattle.closest.specs.Internal.Distances.{StepsFound};
ghost use Rattle.closest.specs.Internal.Tracing.{LastsRight, WayRequires};

use crate::distances::{Distances, find_distances};
use graph::MOST_STATES;
use sheet::plan::{state_count, transition, transition_count};
use sheet::reader::{check, plan_body};
use sheet::{Refusal, State};

// Of each state the number of the last transition of the way to it.
type Lasts = [u16; MOST_STATES];

// From the last transition to the first, so that of those that lead to a state from one of a step less the lowest-numbered stays.
fn find_lasts(plan: &[u8], distances: &Distances) -> Lasts
    requires { WellFormedPlan plan.now × StepsFound plan.now distances.now }
    ensures { LastsRight plan.now result }
{
    let mut lasts = [0; MOST_STATES];
    for i in (0..transition_count(plan)).rev() {
        let last = transition(plan, i);
        let to = usize::from(last.to.0);
        if let Some(before) = distances[usize::from(last.from.0)] {
            if distances[to] == Some(before + 1) {
                lasts[to] = i;
            }
        }
    }
    lasts
}

// The way to a state of so many steps, at the start of out.
fn put_way(plan: &[u8], lasts: &Lasts, state: State, steps: u8, out: &mut [u8])
    requires { WayRequires plan.now lasts.now state.0 steps out.old }
    ensures { out.new ≡ way_bytes (way_to plan.now steps state.0) ++ drop (3 * steps) out.old }
{
    let mut at = state;
    for left in (0..usize::from(steps)).rev() {
        let last = transition(plan, lasts[usize::from(at.0)]);
        out[3 * left..3 * left + 3].copy_from_slice(&[last.from.0, last.action.0, last.to.0]);
        at = last.from;
    }
}

// One shortest way from state 0 to a state: its steps, None where no way leads there. out then holds, from its start, the way's transitions in order, three
// bytes each (from, action, to). Where no way leads to the state, and on a refusal, out is unchanged.
pub fn shortest_way(sheet: &[u8], state: State, out: &mut [u8]) -> Result<Option<u8>, Refusal>
    ensures { Traces sheet.now state.0 out.old result out.new }
{
    check(sheet)?;
    let plan = plan_body(sheet);
    if state_count(plan) <= state.0 {
        return Err(Refusal::NoSuchState);
    }
    let distances = find_distances(plan);
    let Some(steps) = distances[usize::from(state.0)] else {
        return Ok(None);
    };
    if out.len() < 3 * usize::from(steps) {
        return Err(Refusal::OutputShort);
    }
    put_way(plan, &find_lasts(plan, &distances), state, steps, out);
    Ok(Some(steps))
}

// The public call: the reachable states in order, queried in turn.
ghost use Rattle.std.specs.Prelude.{◌≡◌, ◌<◌, All};
ghost use Rattle.graph.specs.Search.{most_states};
ghost use Rattle.closest.specs.Finding.{Finds};
ghost use Rattle.closest.specs.Internal.Answering.{failing_at};

use crate::distances::{Distances, find_distances};
use crate::ordering::order_states;
use crate::states::States;
use crate::{Closest, Failing};
use judge::QueryError;
use judge::turns::query_in_turn;
use sheet::State;
use sheet::reader::{check, plan_body};

// The state behind the first so many, with its steps, if there is one.
fn failing(order: &States, distances: &Distances, passed: usize) -> Option<Failing>
    requires { All (λ state. state < most_states) order.now }
    ensures { result ≡ failing_at order.now distances.now passed }
{
    let state = order.get(passed)?;
    let steps = distances[usize::from(state)]?;
    Some(Failing {
        state: State(state),
        steps,
    })
}

// "Give the state where the rule fails with the fewest steps from state 0, the lowest number between equals, and that step count": that state, if there is
// one, and how many cells were filled. "Refusals go as for a query of state 0", and then nothing changes. A loop that can be reached from a reachable
// state can be reached from state 0, so that the refusals are those of its query.
pub fn find_closest(sheet: &[u8], table: &mut [u8]) -> Result<Closest, QueryError>
    ensures { Finds sheet.now table.old result table.new }
{
    check(sheet)?;
    let plan = plan_body(sheet);
    let distances = find_distances(plan);
    let order = order_states(plan, &distances);
    let judged = query_in_turn(sheet, order.as_slice(), table)?;
    Ok(Closest {
        first: failing(&order, &distances, judged.passed),
        visits: judged.visits,
    })
}

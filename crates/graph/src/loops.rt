// Whether a loop can be reached from a state of a plan, of any bytes.
ghost use Rattle.std.specs.Prelude.{◌≡◌};
ghost use Rattle.graph.specs.LoopSearch.{loop_search_of, reported_loop_search, loop_search_report_of};

use crate::Index;
use crate::searching::explore;
use sheet::plan::{check_plan, state_count};
use sheet::{Refusal, State};

// Whether a loop can be reached from a state of a plan; refusals 4, 5 and 11.
pub fn find_loop(plan: &[u8], state: State) -> Result<bool, Refusal>
    ensures value { result ≡ loop_search_of plan.now state.0 }
    ensures result_value { reported_loop_search result ≡ loop_search_report_of plan.now state.0 }
{
    check_plan(plan)?;
    if state_count(plan) <= state.0 {
        return Err(Refusal::NoSuchState);
    }
    let mut index = Index::new();
    Ok(!explore(plan, &mut index, state))
}

// How many steps each state is from state 0: a breadth-first search over the transitions, which stand in the order of their origins.
ghost use Rattle.std.specs.Prelude.{◌≡◌, ◌+◌, [], ◌∷◌};
ghost use Rattle.sheet.specs.WellFormed.{WellFormedPlan};
ghost use Rattle.closest.specs.Internal.Distances.{marks_of, start_distances, FirstsRight, Queued, ReachRequires, StepsFound};

use crate::states::States;
use graph::MOST_STATES;
use sheet::plan::{transition, transition_count};

// Of each state its steps; None where no way leads there.
pub(crate) type Distances = [Option<u8>; MOST_STATES];

// Where the transitions of each state begin; those of a state end where those of the next begin.
type Firsts = [u16; FIRSTS];

const FIRSTS: usize = MOST_STATES + 1;

// A search under way: the steps of the states reached so far, and these states in the order in which they were reached. Of the first `done` of them the
// successors are reached too.
#[derive(Drop)]
struct Search {
    distances: Distances,
    queue: States,
    done: usize,
}

impl Search {
    // State 0 is reached.
    fn start() -> Self
        ensures { (result.done ≡ 0) × ((result.distances ≡ start_distances) × (result.queue ≡ 0 ∷ [])) }
    {
        let mut distances = [None; MOST_STATES];
        distances[0] = Some(0);
        let mut queue = States::new();
        queue.push(0);
        Search {
            distances,
            queue,
            done: 0,
        }
    }

    // The successors of a state, the next in the queue, that are not reached yet are reached from it.
    fn reach_successors(&mut self, plan: &[u8], firsts: &Firsts, state: u8)
        requires { ReachRequires plan.now firsts.now (marks_of self.old.distances) self.old.queue self.old.done state }
        ensures done { self.new.done ≡ self.old.done }
        ensures reached { Queued plan.now (marks_of self.new.distances) self.new.queue (self.new.done + 1) }
    {
        let at = usize::from(state);
        let steps = self.distances[at].unwrap() + 1;
        for i in firsts[at]..firsts[at + 1] {
            let to = transition(plan, i).to.0;
            if self.distances[usize::from(to)].is_none() {
                self.distances[usize::from(to)] = Some(steps);
                self.queue.push(to);
            }
        }
    }
}

// One pass over states and transitions together. That the plan is well formed is asked here and above as it is of any plan: a type for it would have to be
// made of the sheet's bytes anew.
fn find_firsts(plan: &[u8]) -> Firsts
    requires { WellFormedPlan plan.now }
    ensures { FirstsRight plan.now result }
{
    let count = transition_count(plan);
    let mut firsts = [0; FIRSTS];
    let mut i = 0;
    for s in 0..FIRSTS {
        // A while loop: it goes on where it stopped for the state before.
        while i < count && usize::from(transition(plan, i).from.0) < s {
            i += 1;
        }
        firsts[s] = i;
    }
    firsts
}

// The states are reached in the order of their steps, since those that are reached first have their successors reached first.
pub(crate) fn find_distances(plan: &[u8]) -> Distances
    requires { WellFormedPlan plan.now }
    ensures { StepsFound plan.now result }
{
    let firsts = find_firsts(plan);
    let mut search = Search::start();
    // A while loop: the queue grows as it is gone through.
    while let Some(state) = search.queue.get(search.done) {
        search.reach_successors(plan, &firsts, state);
        search.done += 1;
    }
    search.distances
}

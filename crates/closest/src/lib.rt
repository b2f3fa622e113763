// The closest state that breaks the rule: of the states that can be reached from state 0, the one with the fewest steps at which the rule of a sheet
// fails, by the judge's queries in turn, and one shortest way from state 0 to a state, which needs no table.
#![tactic(auto)]

mod distances;
pub mod finding;
mod layers;
mod ordering;
mod states;
pub mod tracing;

ghost use Rattle.std.specs.Prelude.{◌≡◌};
ghost use Rattle.closest.specs.Finding.{ClosestReport, reported_closest};
ghost use Rattle.closest.specs.Tracing.{TraceReport, reported_trace};

use judge::QueryError;
use sheet::{Refusal, State};

// Where the rule fails first, None where it holds at every state that can be reached; and how many cells were filled.
#[derive(Clone, Copy, Debug, PartialEq, Eq)]
pub struct Closest {
    pub first: Option<Failing>,
    pub visits: usize,
}

// A state at which the rule fails, and its steps from state 0.
#[derive(Clone, Copy, Debug, PartialEq, Eq)]
pub struct Failing {
    pub state: State,
    pub steps: u8,
}

// What the search reports beside number and place: whether a reachable state breaks the rule, that state and its steps, 0 where none does; and how many
// cells were filled. false and 0 where it was refused.
pub trait ClosestAnswer {
    ghost report: { Self → ClosestReport };

    fn found(&self) -> bool
        ensures { result ≡ (report self.now).found };

    fn state(&self) -> State
        ensures { result.0 ≡ (report self.now).state };

    fn steps(&self) -> u8
        ensures { result ≡ (report self.now).steps };

    fn visits(&self) -> usize
        ensures { result ≡ (report self.now).visits };
}

impl ClosestAnswer for Result<Closest, QueryError> {
    ghost report = { reported_closest };

    fn found(&self) -> bool {
        match self {
            Ok(closest) => closest.first.is_some(),
            Err(_) => false,
        }
    }

    fn state(&self) -> State {
        match self {
            Ok(
                Closest {
                    first: Some(failing),
                    visits: _,
                },
            ) => failing.state,
            _ => State(0),
        }
    }

    fn steps(&self) -> u8 {
        match self {
            Ok(
                Closest {
                    first: Some(failing),
                    visits: _,
                },
            ) => failing.steps,
            _ => 0,
        }
    }

    fn visits(&self) -> usize {
        self.map_or(0, |closest| closest.visits)
    }
}

// What the tracing of a way reports beside number and place: whether a way leads to the state, and its steps; false and 0 where none does, and where it
// was refused.
pub trait TraceAnswer {
    ghost report: { Self → TraceReport };

    fn reached(&self) -> bool
        ensures { result ≡ (report self.now).reached };

    fn steps(&self) -> u8
        ensures { result ≡ (report self.now).steps };
}

impl TraceAnswer for Result<Option<u8>, Refusal> {
    ghost report = { reported_trace };

    fn reached(&self) -> bool {
        matches!(self, Ok(Some(_)))
    }

    fn steps(&self) -> u8 {
        match self {
            Ok(Some(steps)) => *steps,
            _ => 0,
        }
    }
}

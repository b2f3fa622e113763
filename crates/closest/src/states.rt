// States in a row, at most as many as a plan can have.
ghost use Rattle.std.specs.Prelude.{◌≡◌, ◌<◌, ◌≤◌, ℕ, List, [], ◌∷◌, ◌++◌, length, take, slice_get};
ghost use Rattle.graph.specs.Search.{most_states};

use graph::MOST_STATES;
use std::marker::Model;

#[derive(Drop)]
pub(crate) struct States {
    states: [u8; MOST_STATES],
    count: usize,
}

// Clauses see the states, first to last.
impl Model for States {
    ghost Value = { List ℕ };

    ghost view = { λ s. take s.count s.states };

    ghost invariant = { λ s. s.count ≤ most_states };
}

impl States {
    pub(crate) fn new() -> Self
        ensures { result ≡ [] }
    {
        States {
            states: [0; MOST_STATES],
            count: 0,
        }
    }

    pub(crate) fn len(&self) -> usize
        ensures { result ≡ length self.now }
    {
        self.count
    }

    pub(crate) fn push(&mut self, state: u8)
        requires { length self.old < most_states }
        ensures { self.new ≡ self.old ++ state ∷ [] }
    {
        self.states[self.count] = state;
        self.count += 1;
    }

    pub(crate) fn as_slice(&self) -> &[u8]
        ensures { result.now ≡ self.now }
    {
        &self.states[..self.count]
    }

    pub(crate) fn get(&self, place: usize) -> Option<u8>
        ensures { result ≡ slice_get self.now place }
    {
        self.as_slice().get(place).copied()
    }
}

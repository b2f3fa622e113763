// A plan as a graph: the search for loops that can be reached from a state, or from several.
#![tactic(auto)]

pub mod loops;
pub mod searching;

ghost use Rattle.graph.specs.Index.{Blank};

// How many values a byte has: a plan of any bytes is searched, so there is a place for each that may name a state or an action.
pub const BYTE_VALUES: usize = 256;

// What a search stores.
#[derive(Clone, Copy)]
pub struct Index {
    // Where the transitions of each state begin; those of a state end where those of the next begin.
    pub firsts: [u16; BYTE_VALUES + 1],
    // The actions that they have.
    pub actions: [bool; BYTE_VALUES],
}

impl Index {
    // With nothing stored.
    pub fn new() -> Index
        ensures { Blank result }
    {
        Index {
            firsts: [0; BYTE_VALUES + 1],
            actions: [false; BYTE_VALUES],
        }
    }
}

// The states that a search from several starts from: those whose entry is not 0.
// They are bytes because explore_all, a public call, takes any bytes: a narrower type would ask more of its callers.
pub type Starts = [u8; MOST_STATES];

pub const MOST_STATES: usize = 128;

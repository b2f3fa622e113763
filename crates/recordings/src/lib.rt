// Recorded runs: the shortest beginning, of either of two recordings, on which the rule of a sheet fails.
//
// A run is judged as a plan that is one chain, at its first state. The judge does it: the chain is put into a sheet with the actions and the rule of the
// sheet given, and that sheet is queried on an empty table.
#![tactic(auto)]

mod chains;
mod judging;
pub mod searching;

ghost use Rattle.std.specs.Prelude.{◌≡◌, Err};
ghost use Rattle.recordings.specs.Shortest.{reported_shortest};
ghost use Rattle.recordings.specs.declared.RecordingError.TheVariants.{Refused};

use sheet::{Numbered, Refusal};

// Which recording the shortest beginning on which the rule fails is of, and how many actions it has.
#[derive(Clone, Copy, Debug, PartialEq, Eq)]
pub enum Failing {
    First(usize),
    Second(usize),
}

// Why two recordings are turned down: a run of too many actions, an action that the sheet does not have, or the sheet's own refusal.
#[derive(Clone, Copy, Debug, PartialEq, Eq)]
pub enum RecordingError {
    RunTooLong,
    NoSuchAction,
    Refused(Refusal),
}

impl From<Refusal> for RecordingError {
    ghost from_gives = { λ x e. e ≡ Refused x };

    fn from(x: Refusal) -> RecordingError {
        RecordingError::Refused(x)
    }
}

impl Numbered for RecordingError {
    ghost number = { λ e. (reported_shortest (Err e)).number };

    ghost place = { λ e. (reported_shortest (Err e)).place };

    fn number(&self) -> u8 {
        match self {
            RecordingError::RunTooLong => 42,
            RecordingError::NoSuchAction => 43,
            RecordingError::Refused(x) => x.number(),
        }
    }

    fn place(&self) -> u16 {
        match self {
            RecordingError::RunTooLong | RecordingError::NoSuchAction => 0,
            RecordingError::Refused(x) => x.place(),
        }
    }
}

// What is answered of two recordings, None where the rule fails on no beginning, and the part of one of them that goes with it.
#[derive(Clone, Copy)]
pub struct Shortest<'a> {
    pub answer: Result<Option<Failing>, RecordingError>,
    pub part: &'a [u8],
}

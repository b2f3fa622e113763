// Rules with repetition: a pattern of runs, with a sheet's rule where it ends, becomes a rule body.
//
// One pass over the pattern says whether it is readable. A readable pattern of more than 189 bytes becomes more than 64 nodes, so what comes after is
// bounded: each part is gone through once for each copy of it in the result, which is made up to its 64th node at most.
#![tactic(auto)]

mod draft;
mod nodes;
mod parts;
mod pattern_check;
mod putting;
mod second_parts;
pub mod translating;

ghost use Rattle.std.specs.Prelude.{◌≡◌, Err};
ghost use Rattle.patterns.specs.Translating.{TranslationReport, reported_translation};
ghost use Rattle.patterns.specs.declared.TranslateError.TheVariants.{TooLarge, Refused};

use sheet::{Numbered, Refusal};

// The most nodes and binders that a rule has, the bytes of the longest rule body, and those of the longest pattern that becomes one.
const MOST_NODES: u8 = 64;

const MOST_BINDERS: u8 = 6;

const LONGEST_BODY: usize = 193;

const LONGEST_PATTERN: usize = 189;

// A number for each place of a pattern.
pub(crate) type Places = [u8; LONGEST_PATTERN];

// The rule becomes larger than a rule may be.
#[derive(Clone, Copy)]
pub(crate) struct Oversize;

// Why the translation turns its input down.
#[derive(Clone, Copy, Debug, PartialEq, Eq)]
pub enum TranslateError {
    Malformed,
    TooLarge,
    Refused(Refusal),
}

impl From<Oversize> for TranslateError {
    ghost from_gives = { λ _ e. e ≡ TooLarge };

    fn from(_x: Oversize) -> TranslateError {
        TranslateError::TooLarge
    }
}

impl From<Refusal> for TranslateError {
    ghost from_gives = { λ x e. e ≡ Refused x };

    fn from(x: Refusal) -> TranslateError {
        TranslateError::Refused(x)
    }
}

// Its number is 30, 31 or that of the refusal; a refusal alone names a place.
impl Numbered for TranslateError {
    ghost number = { λ e. (reported_translation (Err e)).number };

    ghost place = { λ e. (reported_translation (Err e)).place };

    fn number(&self) -> u8 {
        match self {
            TranslateError::Malformed => 30,
            TranslateError::TooLarge => 31,
            TranslateError::Refused(x) => x.number(),
        }
    }

    fn place(&self) -> u16 {
        match self {
            TranslateError::Refused(x) => x.place(),
            _ => 0,
        }
    }
}

// What the translation reports beside number and place: the length of the rule body that it wrote, 0 where it turned its input down.
pub trait TranslateAnswer {
    ghost report: { Self → TranslationReport };

    fn length(&self) -> usize
        ensures { result ≡ (report self.now).size };
}

impl TranslateAnswer for Result<usize, TranslateError> {
    ghost report = { reported_translation };

    fn length(&self) -> usize {
        self.unwrap_or(0)
    }
}

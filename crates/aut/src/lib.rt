// Plans from .aut files: a text in the Aldebaran form becomes the body of a plan.
//
// One pass over the text, in which nothing grows with it. Line by line it is found out whether the text is readable, how many lines it has and whether
// their states are below the stated number, and labels and transitions are gathered, as long as they are not too many: labels as the parts of the text
// where they first stand, transitions as keys in rising order. Numbers may be of any length, so they are compared by their digits. The refusals are told
// at the end, in their order.
#![tactic(auto)]

mod comparing;
pub mod converting;
mod keys;
mod labels;
mod lines;
mod pass;
mod scanning;
mod writing;

ghost use Rattle.std.specs.Prelude.{◌≡◌, Err};
ghost use Rattle.aut.specs.Converting.{ConversionReport, reported_conversion};

use sheet::{Numbered, Refusal};

// Why the converter turns its input down.
#[derive(Clone, Copy, Debug, PartialEq, Eq)]
pub enum ConvertError {
    Malformed,
    StateOutOfRange,
    OverLimits,
    OutputShort,
}

impl Numbered for ConvertError {
    ghost number = { λ e. (reported_conversion (Err e)).number };

    ghost place = { λ e. (reported_conversion (Err e)).place };

    fn number(&self) -> u8 {
        match self {
            ConvertError::Malformed => 37,
            ConvertError::StateOutOfRange => 38,
            ConvertError::OverLimits => 39,
            ConvertError::OutputShort => Refusal::OutputShort.number(),
        }
    }

    fn place(&self) -> u16 {
        0
    }
}

// What the converter reports beside number and place: the length of the body that it wrote, 0 where it turned its input down.
pub trait ConvertAnswer {
    ghost report: { Self → ConversionReport };

    fn length(&self) -> usize
        ensures { result ≡ (report self.now).size };
}

impl ConvertAnswer for Result<usize, ConvertError> {
    ghost report = { reported_conversion };

    fn length(&self) -> usize {
        self.unwrap_or(0)
    }
}

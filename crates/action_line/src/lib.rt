// Action formulas typed as a line, as `not 3 and 4 or 5`: a line becomes the body of an action table, whose last entry is the line's formula.
//
// One pass over the line, in which no function calls itself: token by token it is found out whether the line is readable, whether its actions are known
// and how many entries it has, and the entries are made in a buffer of the call's own, as long as they are not too many. The operators that wait for an
// operand are at most as many as the entries, and each is kept with the number of parentheses open where it stands: parentheses take no room.
#![tactic(auto)]

mod builder;
mod checker;
mod lexer;
pub mod parsing;
mod pass;

ghost use Rattle.std.specs.Prelude.{◌≡◌, Err};
ghost use Rattle.action_line.specs.Parsing.{ParseReport, reported_parse};

use sheet::{Numbered, Refusal};

// The most entries that an action table may have, and the bytes of the longest body.
const MOST_ENTRIES: usize = 32;

const LONGEST_BODY: usize = 97;

// A token of a line. A number from 255 on is held as 255: it is no action, whatever A is.
#[derive(Clone, Copy)]
pub(crate) enum Token {
    Number(u8),
    True,
    False,
    Not,
    And,
    Or,
    Open,
    Close,
    Invalid,
}

// Why the parser turns its input down.
#[derive(Clone, Copy, Debug, PartialEq, Eq)]
pub enum ParseError {
    Unreadable,
    UnknownAction,
    TooManyEntries,
    OutputShort,
}

// Its number is 32, 33, 34 or that of the sheet's refusal; it names no place.
impl Numbered for ParseError {
    ghost number = { λ e. (reported_parse (Err e)).number };

    ghost place = { λ e. (reported_parse (Err e)).place };

    fn number(&self) -> u8 {
        match self {
            ParseError::Unreadable => 32,
            ParseError::UnknownAction => 33,
            ParseError::TooManyEntries => 34,
            ParseError::OutputShort => Refusal::OutputShort.number(),
        }
    }

    fn place(&self) -> u16 {
        0
    }
}

// What the parser reports beside number and place: the length of the body that it wrote, 0 where it turned its input down.
pub trait ParseAnswer {
    ghost report: { Self → ParseReport };

    fn length(&self) -> usize
        ensures { result ≡ (report self.now).size };
}

impl ParseAnswer for Result<usize, ParseError> {
    ghost report = { reported_parse };

    fn length(&self) -> usize {
        self.unwrap_or(0)
    }
}

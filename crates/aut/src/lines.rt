// Lines, and their parts.
ghost use Rattle.std.specs.Prelude.{◌≡◌};
ghost use Rattle.aut.specs.Scanning.{rest, first_at};
ghost use Rattle.aut.specs.Internal.Pieces.{rest_of, LineRead, HeadingRead, NumberRead, LabelRead};

use crate::scanning::{after_byte, after_space, label, numeral};

// A number with the byte that ends it: its digits, and what is left of the text after them.
fn number_before(text: &[u8], end: u8) -> Option<(&[u8], &[u8])>
    ensures { NumberRead text.now end result }
{
    let (digits, left) = numeral(text)?;
    Some((digits, after_byte(left, end)?))
}

// A label in its quote marks, with the comma that ends it: its bytes, and what is left of the text after them.
fn quoted_label(text: &[u8]) -> Option<(&[u8], &[u8])>
    ensures { LabelRead text.now result }
{
    let (bytes, left) = label(after_byte(text, b'"')?);
    Some((bytes, after_byte(after_byte(left, b'"')?, b',')?))
}

// What stands in a line: the digits of its states, and its label.
#[derive(Clone, Copy)]
pub(crate) struct Line<'t> {
    pub from: &'t [u8],
    pub label: &'t [u8],
    pub to: &'t [u8],
}

// A line, and what is left of the text after it.
#[tactic(auto, unfolding(crate::specs::Scanning::after_line))]
pub(crate) fn read_line(text: &[u8]) -> Option<(Line, &[u8])>
    ensures { LineRead text.now result }
{
    let (from, left) = number_before(after_byte(text, b'(')?, b',')?;
    let (label, left) = quoted_label(after_space(left))?;
    let (to, left) = number_before(after_space(left), b')')?;
    Some((Line { from, label, to }, after_byte(left, b'\n')?))
}

// The digits of the numbers in the first line.
#[derive(Clone, Copy)]
pub(crate) struct Heading<'t> {
    pub first: &'t [u8],
    pub transitions: &'t [u8],
    pub states: &'t [u8],
}

// `des`, a shown space and a parenthesis.
fn after_des(text: &[u8]) -> Option<&[u8]>
    ensures { rest_of result ≡ first_at (rest text.now) }
{
    let left = after_byte(after_byte(after_byte(text, b'd')?, b'e')?, b's')?;
    after_byte(after_space(left), b'(')
}

// The first line, and what is left of the text after it.
#[tactic(auto, unfolding(crate::specs::Scanning::after_first_line))]
pub(crate) fn read_heading(text: &[u8]) -> Option<(Heading, &[u8])>
    ensures { HeadingRead text.now result }
{
    let (first, left) = number_before(after_des(text)?, b',')?;
    let (transitions, left) = number_before(after_space(left), b',')?;
    let (states, left) = number_before(after_space(left), b')')?;
    Some((
        Heading {
            first,
            transitions,
            states,
        },
        after_byte(left, b'\n')?,
    ))
}

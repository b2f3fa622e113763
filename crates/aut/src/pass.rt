// The pass over the lines after the first: are they readable, how many, are their states below the stated number; and their labels and transitions, as
// long as these are not too many.
ghost use Rattle.std.specs.Prelude.{◌≡◌, ◌&&◌, ◌+◌, ◌<◌, ◌≤◌, leb, length, [], true};
ghost use Rattle.text.specs.Numerals.{decimal_value, is_decimal};
ghost use Rattle.aut.specs.Internal.Digits.{below_digits};
ghost use Rattle.aut.specs.Internal.Passing.{Within, added, within, PassedOver};

use crate::comparing::{below, value};
use crate::keys::{Keys, key_of};
use crate::labels::Labels;
use crate::lines::{Line, read_line};

// The most labels and transitions that a plan may have.
const MOST_LABELS: usize = 255;

const MOST_KEYS: usize = 2048;

// A state is worked out no further.
const LARGEST_BYTE: usize = 255;

// Labels and transitions of lines.
#[derive(Drop)]
pub(crate) struct Gathered<'t> {
    pub labels: Labels<'t>,
    pub keys: Keys,
}

impl<'t> Gathered<'t> {
    // They are as few as a plan may have.
    pub(crate) fn is_within_limits(&self) -> bool
        ensures { result ≡ within self.now }
    {
        self.labels.len() <= MOST_LABELS && self.keys.as_slice().len() <= MOST_KEYS
    }

    // The label and the transition of a line are added; its states, which a plan may have, are below 256.
    fn add(&mut self, line: Line<'t>)
        requires { Within self.old }
        ensures { self.new ≡ added line.entry self.old }
    {
        let origin = value(line.from, LARGEST_BYTE);
        let action = self.labels.number_of(line.label);
        let target = value(line.to, LARGEST_BYTE);
        self.keys.insert(key_of(origin, action, target));
    }
}

// What the pass finds out of readable lines: how many there are, and whether their states are below the stated number.
#[derive(Clone, Copy)]
pub(crate) struct Pass {
    pub lines: usize,
    pub below: bool,
}

// The states of a line are below a number.
fn is_line_below(line: Line, states: &[u8]) -> bool
    ensures { result ≡ below_digits line.entry.from.now states.now && below_digits line.entry.to.now states.now }
{
    below(line.from, states) && below(line.to, states)
}

// The lines of a text, or `None` where one cannot be read. Few: the stated number of states is not over the limit. A while loop: each line is taken off
// the front of what is left.
pub(crate) fn pass_over<'t>(
    text: &'t [u8],
    states: &[u8],
    few: bool,
    gathered: &mut Gathered<'t>,
) -> Option<Pass>
    requires states_read { (is_decimal states.now ≡ true) × (few ≡ leb (decimal_value states.now) 128) }
    requires nothing_yet { (gathered.old.labels ≡ []) × (gathered.old.keys ≡ []) }
    ensures { PassedOver text.now (decimal_value states.now) few result gathered.new }
{
    let mut rest = text;
    let mut pass = Pass {
        lines: 0,
        below: true,
    };
    // A while loop: where a line ends is known only when it has been read.
    while !rest.is_empty() {
        let (line, left) = read_line(rest)?;
        pass.below &= is_line_below(line, states);
        if few && pass.below && gathered.is_within_limits() {
            gathered.add(line);
        }
        pass.lines += 1;
        rest = left;
    }
    Some(pass)
}

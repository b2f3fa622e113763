// The public call: refusals 37, 38, 39 and 22, else the body of the plan.
ghost use Rattle.std.specs.Prelude.{◌≡◌, ◌+◌, ◌<◌, ◌^◌};
ghost use Rattle.aut.specs.Converting.{Converts};
ghost use Rattle.aut.specs.Internal.Answering.{checked_of};

use crate::ConvertError;
use crate::comparing::value;
use crate::keys::Keys;
use crate::labels::Labels;
use crate::lines::{Heading, read_heading};
use crate::pass::{Gathered, Pass, pass_over};
use crate::writing::write_body;

// The most states that a plan may have.
const MOST_STATES: usize = 128;

// The text, whose parts these are, is right but for the room that its body takes, or the refusal; states is the stated number, or 129 where it is greater.
fn check_text(
    first: Heading,
    states: usize,
    pass: Pass,
    gathered: &Gathered,
) -> Result<(), ConvertError>
    requires { pass.lines + 1 < 2 ^ 64 }
    ensures { result ≡ checked_of first.entry states pass gathered.now }
{
    let right = value(first.first, 1) == 0
        && value(first.transitions, pass.lines + 1) == pass.lines;
    let below = states != 0 && pass.below;
    let within = states <= MOST_STATES && gathered.is_within_limits();
    if !right {
        return Err(ConvertError::Malformed);
    }
    if !below {
        return Err(ConvertError::StateOutOfRange);
    }
    if !within {
        return Err(ConvertError::OverLimits);
    }
    Ok(())
}

// The plan body of the text, at the front of out, and its length; or the refusal, with out unchanged.
pub fn convert(text: &[u8], out: &mut [u8]) -> Result<usize, ConvertError>
    ensures { Converts text.now out.old result out.new }
{
    let Some((first, lines)) = read_heading(text) else {
        return Err(ConvertError::Malformed);
    };
    let states = value(first.states, MOST_STATES + 1);
    // Put together here, and not by a function of its own, which would copy all of it.
    let mut gathered = Gathered {
        labels: Labels::new(),
        keys: Keys::new(),
    };
    let Some(pass) = pass_over(lines, first.states, states <= MOST_STATES, &mut gathered) else {
        return Err(ConvertError::Malformed);
    };
    check_text(first, states, pass, &gathered)?;
    write_body(
        states as u8,
        gathered.labels.len() as u8,
        gathered.keys.as_slice(),
        out,
    )
}

// The public call: refusals 32, 33, 34 and 22, else the body of the line.
ghost use Rattle.std.specs.Prelude.{◌≡◌, length};
ghost use Rattle.action_line.specs.Parsing.{Parses};
ghost use Rattle.action_line.specs.Internal.Answering.{BodyWritten};

use crate::builder::BodyBuilder;
use crate::pass::pass_over;
use crate::{LONGEST_BODY, MOST_ENTRIES, ParseError};

// So many entries, which stand in made from byte 1 on, at the front of out as a body.
fn write_body(
    made: &[u8; LONGEST_BODY],
    entries: usize,
    out: &mut [u8],
) -> Result<usize, ParseError>
    ensures { BodyWritten made.now entries out.old result out.new }
{
    if MOST_ENTRIES < entries {
        return Err(ParseError::TooManyEntries);
    }
    let length = 1 + 3 * entries;
    if out.len() < length {
        return Err(ParseError::OutputShort);
    }
    out[..length].copy_from_slice(&made[..length]);
    out[0] = entries as u8;
    Ok(length)
}

// The kind 2 body of the line for so many actions, at the front of out, and its length; or the refusal, with out unchanged.
pub fn parse(actions: u8, line: &[u8], out: &mut [u8]) -> Result<usize, ParseError>
    ensures { Parses actions line.now out.old result out.new }
{
    let mut builder = BodyBuilder::new();
    let entries = pass_over(line, actions, &mut builder)?;
    write_body(&builder.made, entries, out)
}

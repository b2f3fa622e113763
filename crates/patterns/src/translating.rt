// The public call: refusals 1 to 10, 30, 31 and 22, else the rule body of the pattern.
ghost use Rattle.std.specs.Prelude.{◌≡◌};
ghost use Rattle.patterns.specs.Translating.{Translates};
ghost use Rattle.patterns.specs.Internal.Answering.{Readable, BodyAnswered};

use crate::draft::Draft;
use crate::pattern_check::is_readable;
use crate::putting::Source;
use crate::second_parts::note_seconds;
use crate::{LONGEST_PATTERN, TranslateError};
use sheet::actions::entry_count;
use sheet::reader::{actions_body, check, rule_body};

// The rule body of a readable pattern, at the front of out.
fn put_body(rule: &[u8], pattern: &[u8], out: &mut [u8]) -> Result<usize, TranslateError>
    requires { Readable rule.now pattern.now }
    ensures { BodyAnswered rule.now pattern.now out.old result out.new }
{
    if LONGEST_PATTERN < pattern.len() {
        return Err(TranslateError::TooLarge);
    }
    let mut seconds = [0; LONGEST_PATTERN];
    note_seconds(pattern, 1, &mut seconds);
    let source = Source {
        rule,
        pattern,
        seconds: &seconds,
    };
    let mut draft = Draft::new();
    draft.put_part(&source, 1, 0)?;
    draft.write(out)
}

// The rule body that a pattern becomes, with the sheet's rule where the pattern ends, at the front of out, and its length; or the refusal, with out
// unchanged.
pub fn translate(sheet: &[u8], pattern: &[u8], out: &mut [u8]) -> Result<usize, TranslateError>
    ensures { Translates sheet.now pattern.now out.old result out.new }
{
    check(sheet)?;
    if !is_readable(pattern, entry_count(actions_body(sheet))) {
        return Err(TranslateError::Malformed);
    }
    put_body(rule_body(sheet), pattern, out)
}

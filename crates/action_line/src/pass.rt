// The pass over a line: what it is, and its entries as long as they are not too many.
ghost use Rattle.action_line.specs.Internal.Building.{IsNew};
ghost use Rattle.action_line.specs.Internal.Passing.{PassedOver};

use crate::builder::BodyBuilder;
use crate::checker::Expected;
use crate::lexer::Tokens;
use crate::{MOST_ENTRIES, ParseError};

// The number of entries of a readable line whose actions are known; they are made, unless they are too many.
pub(crate) fn pass_over(
    line: &[u8],
    actions: u8,
    builder: &mut BodyBuilder,
) -> Result<usize, ParseError>
    requires { IsNew builder.old }
    ensures { PassedOver actions line.now builder.old.made result builder.new.made }
{
    let mut expected = Expected::Operand(0);
    let mut known = true;
    let mut entries = 0;
    for token in Tokens::new(line) {
        expected = expected.after(token).ok_or(ParseError::Unreadable)?;
        known &= token.is_known(actions);
        entries += token.entries();
        if entries <= MOST_ENTRIES {
            builder.step(token);
        }
    }
    if entries <= MOST_ENTRIES {
        builder.end();
    }
    if !expected.is_complete() {
        return Err(ParseError::Unreadable);
    }
    if !known {
        return Err(ParseError::UnknownAction);
    }
    Ok(entries)
}

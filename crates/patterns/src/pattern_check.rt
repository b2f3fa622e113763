// Whether bytes are a pattern: one pass, which keeps nothing but the number of parts still to come.
ghost use Rattle.std.specs.Prelude.{◌≡◌};
ghost use Rattle.patterns.specs.Patterns.{reading_of};
ghost use Rattle.patterns.specs.Internal.Passing.{is_readable};

use crate::parts::PartKind;

// The leading byte is 0 or 1, and one part takes up all bytes after it.
pub(crate) fn is_readable(pattern: &[u8], entries: u8) -> bool
    ensures { result ≡ is_readable (reading_of entries pattern.now) }
{
    let Some((every, parts)) = pattern.split_first() else {
        return false;
    };
    if 1 < *every {
        return false;
    }
    let mut rest = parts;
    let mut missing: usize = 1;
    // A while loop: a part takes one byte or two.
    while let Some((op, behind)) = rest.split_first() {
        if missing == 0 {
            return false;
        }
        let Ok(kind) = PartKind::try_from(*op) else {
            return false;
        };
        match kind {
            PartKind::Entry => {
                let Some((entry, behind)) = behind.split_first() else {
                    return false;
                };
                if entries <= *entry {
                    return false;
                }
                missing -= 1;
                rest = behind;
            }
            PartKind::Sequence | PartKind::Choice => {
                missing += 1;
                rest = behind;
            }
            PartKind::Repetition => rest = behind,
        }
    }
    missing == 0
}

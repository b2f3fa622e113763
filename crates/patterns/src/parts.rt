// The kinds of a pattern's parts.
ghost use Rattle.patterns.specs.Internal.PartKinds.{ReadsPartKind};

use sheet::kinds::UnknownKind;

// What a part is: an action entry, one part after another, a choice of two, a part any number of times.
#[derive(Clone, Copy, Debug, PartialEq, Eq)]
pub(crate) enum PartKind {
    Entry,
    Sequence,
    Choice,
    Repetition,
}

impl TryFrom<u8> for PartKind {
    type Error = UnknownKind;

    ghost try_from_gives = { ReadsPartKind };

    fn try_from(number: u8) -> Result<PartKind, UnknownKind> {
        match number {
            0 => Ok(PartKind::Entry),
            1 => Ok(PartKind::Sequence),
            2 => Ok(PartKind::Choice),
            3 => Ok(PartKind::Repetition),
            _ => Err(UnknownKind(number)),
        }
    }
}

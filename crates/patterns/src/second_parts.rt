// Where the second part of each sequence and choice begins.
ghost use Rattle.patterns.specs.Internal.SecondParts.{PartHere, SecondsNoted};

use crate::Places;
use crate::parts::PartKind;

// The place after the part at a place; seconds gets the place of the second part, at the place of each sequence and choice in it.
#[tactic(auto, using(crate::proofs::Steps::SecondSteps::here_place))]
pub(crate) fn note_seconds(pattern: &[u8], at: usize, seconds: &mut Places) -> usize
    requires { PartHere pattern.now at seconds.old }
    ensures { SecondsNoted pattern.now at seconds.old seconds.new result }
{
    // A readable pattern has no number but those of the kinds.
    let Ok(kind) = PartKind::try_from(pattern[at]) else {
        return at;
    };
    match kind {
        PartKind::Entry => at + 2,
        PartKind::Sequence | PartKind::Choice => {
            let second = note_seconds(pattern, at + 1, seconds);
            seconds[at] = second as u8;
            note_seconds(pattern, second, seconds)
        }
        PartKind::Repetition => note_seconds(pattern, at + 1, seconds),
    }
}

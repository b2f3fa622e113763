// Which action formulas of a sheet an action meets: a bit for each entry. Both judges ask here.
ghost use Rattle.std.specs.Prelude.{◌≡◌, ◌<◌};
ghost use Rattle.calculus.specs.MeetingMask.{bit, mask_up_to, meeting_mask};
ghost use Rattle.calculus.specs.Meaning.{meets};
ghost use Rattle.calculus.specs.Decode.{action_formula};

use sheet::actions::{entry, entry_count};
use sheet::kinds::EntryKind;
use sheet::{Action, Fields};

// Whether the mask has the bit of an entry.
pub fn has_bit(mask: u32, entry: u8) -> bool
    ensures { result ≡ bit mask entry }
{
    entry < 32 && (mask >> entry) % 2 == 1
}

// Whether the action meets entry e among the count actions; mask has the bits of the entries before it.
fn entry_meets(actions: &[u8], e: u8, count: u8, action: Action, mask: u32) -> bool
    requires { mask ≡ mask_up_to e count actions.now action.0 }
    ensures { result ≡ meets count (action_formula actions.now e) action.0 }
{
    let Fields { kind, x, y } = entry(actions, e);
    let Ok(kind) = EntryKind::try_from(kind) else {
        return false;
    };
    match kind {
        EntryKind::False => false,
        EntryKind::True => action.0 < count,
        EntryKind::Action => action.0 == x,
        EntryKind::Or => has_bit(mask, x) || has_bit(mask, y),
        EntryKind::And => has_bit(mask, x) && has_bit(mask, y),
        // "Not" is taken among the count actions.
        EntryKind::Not => action.0 < count && !has_bit(mask, x),
        EntryKind::Range => (x..=y).contains(&action.0),
    }
}

// A bit for each entry, from the first up: operands stand before the entries that name them.
pub fn meeting(actions: &[u8], count: u8, action: Action) -> u32
    ensures { result ≡ meeting_mask count actions.now action.0 }
{
    let mut mask = 0;
    for e in 0..entry_count(actions).min(32) {
        if entry_meets(actions, e, count, action, mask) {
            mask |= 1 << e;
        }
    }
    mask
}

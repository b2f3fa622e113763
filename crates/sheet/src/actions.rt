// The action formulas: their check and their fields.
ghost use Rattle.std.specs.Prelude.{◌≡◌, ◌&&◌, ◌<◌, eqb, ltb, leb};
ghost use Rattle.sheet.specs.Actions.{entry_count, actions_sized, entry_right, entry_faulty, lowest_entry};
ghost use Rattle.sheet.specs.Fields.{fields_at};
ghost use Rattle.sheet.specs.Reading.{actions_check};

use crate::decode::{byte_at, fields_at, narrow_at};
use crate::{Fields, Refusal};

// The table's length and count are within their limits.
fn sized(a: &[u8]) -> bool
    ensures { result ≡ actions_sized a.now }
{
    let count = byte_at(a, 0);
    !a.is_empty() && count <= 32 && a.len() == 1 + 3 * count
}

// Entry e of kind k: each kind has its own use of x and y. By its number, since an entry that is checked may have no kind.
fn entry_right(actions: usize, e: usize, k: usize, x: usize, y: usize) -> bool
    ensures { result ≡ entry_right actions e k x y }
{
    match k {
        0..=1 => x == 0 && y == 0,
        2 => x < actions && y == 0,
        3..=4 => x < e && y < e,
        5 => x < e && y == 0,
        6 => x <= y && y < actions,
        _ => false,
    }
}

fn entry_faulty(actions: usize, a: &[u8], e: usize) -> bool
    requires { e < 256 }
    ensures { result ≡ entry_faulty actions a.now e }
{
    let k = byte_at(a, 1 + 3 * e);
    let x = byte_at(a, 2 + 3 * e);
    let y = byte_at(a, 3 + 3 * e);
    !entry_right(actions, e, k, x, y)
}

// The lowest faulty entry, or the number of entries.
fn lowest_faulty(actions: usize, a: &[u8]) -> usize
    ensures { (result ≡ lowest_entry actions a.now) × (result < 256) }
{
    let count = byte_at(a, 0);
    for e in 0..count {
        if entry_faulty(actions, a, e) {
            return e;
        }
    }
    count
}

// Refusals 6 and 7.
pub(crate) fn check_actions(actions: usize, a: &[u8]) -> Result<(), Refusal>
    ensures { result ≡ actions_check actions a.now }
{
    if !sized(a) {
        return Err(Refusal::ActionsSize);
    }
    let e = lowest_faulty(actions, a);
    if e == byte_at(a, 0) {
        Ok(())
    } else {
        Err(Refusal::EntryFault(e as u8))
    }
}

// The number of action entries.
pub fn entry_count(actions: &[u8]) -> u8
    ensures { result ≡ entry_count actions.now }
{
    narrow_at(actions, 0)
}

// Entry e: kind, x, y.
pub fn entry(actions: &[u8], e: u8) -> Fields
    ensures { result ≡ fields_at actions.now e }
{
    fields_at(actions, e)
}

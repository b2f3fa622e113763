// The reader: checks a sheet from front to back and says where its bodies lie.
ghost use Rattle.std.specs.Prelude.{◌≡◌};
ghost use Rattle.sheet.specs.Refusals.{reported_check};
ghost use Rattle.sheet.specs.Contents.{plan_body, actions_body, rule_body};
ghost use Rattle.sheet.specs.Reading.{sheet_check, bodies_of};
ghost use Rattle.sheet.specs.RunningCalls.{Reads};

use crate::contents::check_in_order;
use crate::decode::{slice_of, word_at};
use crate::{Bodies, HEAD_LENGTH, Refusal, Span};

// The bodies of an accepted sheet: from 17 on, one after another, by the lengths that the table of contents states. These do not check the sheet.
pub fn plan_body(sheet: &[u8]) -> &[u8]
    ensures { result.now ≡ plan_body sheet.now }
{
    slice_of(sheet, HEAD_LENGTH, word_at(sheet, 5))
}

pub fn actions_body(sheet: &[u8]) -> &[u8]
    ensures { result.now ≡ actions_body sheet.now }
{
    slice_of(sheet, HEAD_LENGTH + word_at(sheet, 5), word_at(sheet, 10))
}

pub fn rule_body(sheet: &[u8]) -> &[u8]
    ensures { result.now ≡ rule_body sheet.now }
{
    slice_of(
        sheet,
        HEAD_LENGTH + word_at(sheet, 5) + word_at(sheet, 10),
        word_at(sheet, 15),
    )
}

// Refusals 1 to 10.
pub fn check(sheet: &[u8]) -> Result<(), Refusal>
    ensures value { result ≡ sheet_check sheet.now }
    ensures result_value { reported_check result ≡ reported_check (sheet_check sheet.now) }
{
    if sheet.len() < HEAD_LENGTH {
        return Err(Refusal::TooShort);
    }
    check_in_order(sheet)
}

fn bodies_of(sheet: &[u8]) -> Bodies
    ensures { result ≡ bodies_of sheet.now }
{
    let plan = word_at(sheet, 5);
    let actions = word_at(sheet, 10);
    let rule = word_at(sheet, 15);
    Bodies {
        plan: Span {
            offset: HEAD_LENGTH,
            length: plan,
        },
        actions: Span {
            offset: HEAD_LENGTH + plan,
            length: actions,
        },
        rule: Span {
            offset: HEAD_LENGTH + plan + actions,
            length: rule,
        },
    }
}

// Number, place, and each body's offset and length.
pub fn read(sheet: &[u8]) -> Result<Bodies, Refusal>
    ensures { Reads sheet.now result }
{
    check(sheet)?;
    Ok(bodies_of(sheet))
}

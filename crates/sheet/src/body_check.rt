// The checks of a plan, actions and a rule that go together.
ghost use Rattle.std.specs.Prelude.{◌≡◌};
ghost use Rattle.sheet.specs.Reading.{bodies_check};

use crate::Refusal;
use crate::actions::check_actions;
use crate::decode::byte_at;
use crate::plan::check_plan;
use crate::rule::check_rule;

// Refusals 4 to 10.
pub(crate) fn check_bodies(p: &[u8], a: &[u8], r: &[u8]) -> Result<(), Refusal>
    ensures { result ≡ bodies_check p.now a.now r.now }
{
    check_plan(p)?;
    check_actions(byte_at(p, 1), a)?;
    check_rule(byte_at(a, 0), r)
}

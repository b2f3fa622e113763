// What the mark of a cell says of variables and binders.
ghost use Rattle.std.specs.Prelude.{◌≡◌, ◌<◌};
ghost use Rattle.judge.specs.Cells.{outer, opened};

use sheet::Variable;

// Whether variable k stands for its binder's cell under a mark.
pub(crate) fn is_outer(k: Variable, mark: u8) -> bool
    ensures { result ≡ outer k.0 mark }
{
    mark == 0 || k.0 < mark - 1
}

// The mark under which the child of binder k is decided.
pub(crate) fn opening(k: Variable, mark: u8) -> u8
    requires { k.0 < 6 }
    ensures { result ≡ opened k.0 mark }
{
    if mark == 0 { k.0 + 1 } else { mark }
}

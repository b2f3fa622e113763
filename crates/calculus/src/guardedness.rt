// The guard check: Definition 2, node by node.
ghost use Rattle.std.specs.Prelude.{◌≡◌};
ghost use Rattle.calculus.specs.Internal.GuardContracts.{Since, GuardedSince};
ghost use Rattle.calculus.specs.GuardCheck.{Guards};

use sheet::kinds::NodeKind;
use sheet::reader::{check, rule_body};
use sheet::rule::{bound_before, node};
use sheet::{Fields, Node, Refusal, Variable};

// Whether the formula of node n is guarded. Definition 2's set has the variables whose binders stand from node first on: a binder joins it, a modality
// empties it, and a variable must not be in it.
fn guarded_since(rule: &[u8], n: Node, first: Node) -> bool
    requires { Since rule.now n.0 first.0 }
    ensures { GuardedSince rule.now n.0 first.0 result }
{
    let Fields { kind, x, y } = node(rule, n);
    let Ok(kind) = NodeKind::try_from(kind) else {
        return true;
    };
    match kind {
        NodeKind::False | NodeKind::True => true,
        NodeKind::Or | NodeKind::And => {
            guarded_since(rule, Node(x), first) && guarded_since(rule, Node(y), first)
        }
        NodeKind::Diamond | NodeKind::Box => guarded_since(rule, Node(y), n),
        NodeKind::Variable => bound_before(rule, Variable(x), first),
        NodeKind::Least | NodeKind::Greatest => guarded_since(rule, Node(y), first),
    }
}

// Yes or no for an accepted sheet, or its refusal.
pub fn guard(sheet: &[u8]) -> Result<bool, Refusal>
    ensures { Guards sheet.now result }
{
    check(sheet)?;
    Ok(guarded_since(rule_body(sheet), Node(0), Node(0)))
}

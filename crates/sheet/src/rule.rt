// The rule: its check and its fields.
ghost use Rattle.std.specs.Prelude.{◌≡◌, ◌&&◌, ◌+◌, ◌<◌, ◌≤◌, eqb, ltb};
ghost use Rattle.sheet.specs.Rule.{node_count, binder_count, rule_sized, node_kind, node_x, node_y, child_is, syntax_fault, is_binder, binders_before, binder_node, subtree_end, below, binding_faulty, lowest_binding};
ghost use Rattle.sheet.specs.Internal.Counting.{BindersCounted};
ghost use Rattle.sheet.specs.Internal.Subtrees.{NodeOf, Ended};
ghost use Rattle.sheet.specs.Fields.{fields_at};
ghost use Rattle.sheet.specs.Reading.{rule_check};

use crate::decode::{byte_at, fields_at, narrow_at};
use crate::kinds::child_count;
use crate::{Fields, Node, Refusal, Variable};

// The most nodes of a rule.
const MOST_NODES: usize = 64;

// The rule's length and N are within their limits.
fn sized(r: &[u8]) -> bool
    ensures { result ≡ rule_sized r.now }
{
    let count = byte_at(r, 0);
    !r.is_empty() && 1 <= count && count <= MOST_NODES && r.len() == 1 + 3 * count
}

fn kind_at(r: &[u8], n: Node) -> usize
    ensures { (result ≡ node_kind r.now n.0) × (result < 256) }
{
    byte_at(r, 1 + 3 * usize::from(n.0))
}

fn x_at(r: &[u8], n: Node) -> usize
    ensures { (result ≡ node_x r.now n.0) × (result < 256) }
{
    byte_at(r, 2 + 3 * usize::from(n.0))
}

fn y_at(r: &[u8], n: Node) -> usize
    ensures { (result ≡ node_y r.now n.0) × (result < 256) }
{
    byte_at(r, 3 + 3 * usize::from(n.0))
}

fn leaf_right(r: &[u8], n: Node) -> bool
    ensures { result ≡ (eqb (node_x r.now n.0) 0 && eqb (node_y r.now n.0) 0) }
{
    x_at(r, n) == 0 && y_at(r, n) == 0
}

fn variable_right(r: &[u8], n: Node) -> bool
    ensures { result ≡ eqb (node_y r.now n.0) 0 }
{
    y_at(r, n) == 0
}

fn child_is(r: &[u8], child: usize, place: usize) -> bool
    ensures { result ≡ child_is r.now child place }
{
    child == place && place < byte_at(r, 0)
}

fn x_is_child(r: &[u8], n: Node, place: usize) -> bool
    ensures { result ≡ child_is r.now (node_x r.now n.0) place }
{
    child_is(r, x_at(r, n), place)
}

fn y_is_child(r: &[u8], n: Node, place: usize) -> bool
    ensures { result ≡ child_is r.now (node_y r.now n.0) place }
{
    child_is(r, y_at(r, n), place)
}

fn modal_right(r: &[u8], entries: usize, n: Node) -> bool
    ensures { result ≡ (ltb (node_x r.now n.0) entries && child_is r.now (node_y r.now n.0) (n.0 + 1)) }
{
    x_at(r, n) < entries && y_is_child(r, n, usize::from(n.0) + 1)
}

// The subtree of node n: each kind takes its own course. By the number of the kind, as the reader's form is.
fn subtree_from(r: &[u8], entries: usize, n: Node) -> Result<usize, Node>
    requires { NodeOf r.now n.0 }
    ensures { Ended entries r.now n.0 result }
{
    let next = n.0 as usize + 1;
    match kind_at(r, n) {
        0..=1 if leaf_right(r, n) => Ok(next),
        2..=3 if x_is_child(r, n, next) => {
            let end = subtree_from(r, entries, Node(n.0 + 1))?;
            if y_is_child(r, n, end) {
                subtree_from(r, entries, Node(end as u8))
            } else {
                Err(n)
            }
        }
        4..=5 if modal_right(r, entries, n) => subtree_from(r, entries, Node(n.0 + 1)),
        6 if variable_right(r, n) => Ok(next),
        7..=8 if y_is_child(r, n, next) => subtree_from(r, entries, Node(n.0 + 1)),
        _ => Err(n),
    }
}

// The first faulty node in preorder, or the number of nodes.
fn syntax_fault(r: &[u8], entries: usize) -> usize
    requires { NodeOf r.now 0 }
    ensures { (result ≡ syntax_fault entries r.now) × (result ≤ 64) }
{
    match subtree_from(r, entries, Node(0)) {
        Err(m) => usize::from(m.0),
        Ok(e) => e,
    }
}

// How many binders stand among the first n nodes.
fn binders_before(r: &[u8], n: usize) -> usize
    requires { n < 256 }
    ensures { BindersCounted r.now n result }
{
    let mut binders = 0;
    for at in 0..n {
        binders = binders_with(r, Node(at as u8), binders);
    }
    binders
}

// Whether node n is the binder numbered k; binders is the number of binders before it.
fn is_binder_of(r: &[u8], n: Node, binders: usize, k: usize) -> bool
    ensures { result ≡ (is_binder r.now n.0 && eqb binders k) }
{
    is_binder(r, n) && binders == k
}

// The node of the binder numbered k, or the number of nodes where there is none. Plain numbers: a rule that is not checked yet may ask for the binder
// of a variable that it has not.
fn binder_place(r: &[u8], k: usize) -> u8
    ensures { result ≡ binder_node r.now k }
{
    let count = narrow_at(r, 0);
    let mut binders = 0;
    for n in 0..count {
        if is_binder_of(r, Node(n), binders, k) {
            return n;
        }
        binders = binders_with(r, Node(n), binders);
    }
    count
}

// The place just after node n's subtree, where its last child's subtree ends: it may be no node, and on bytes that are no rule the way to it may
// pass places that are none, so these stay plain numbers.
pub fn subtree_end(r: &[u8], n: Node) -> usize
    ensures { result ≡ subtree_end r.now n.0 }
{
    let mut at = usize::from(n.0);
    for _step in 0..MOST_NODES {
        match child_count(narrow_at(r, 1 + 3 * at)) {
            0 => return at + 1,
            1 => at += 1,
            _ => at = byte_at(r, 3 + 3 * at),
        }
    }
    at
}

// Whether node n stands below the binder numbered k.
fn below_binder(r: &[u8], k: usize, n: Node) -> bool
    ensures { result ≡ below r.now (binder_node r.now k) n.0 }
{
    let binder = binder_place(r, k);
    if binder < n.0 {
        return usize::from(n.0) < subtree_end(r, Node(binder));
    }
    false
}

// Whether the variable or binder node n breaks the rules of binding; binders is the number of binders before it. By the number of the kind, since a node
// that is checked may have none.
fn binding_faulty(r: &[u8], n: Node, binders: usize) -> bool
    requires { binders ≡ binders_before r.now n.0 }
    ensures { result ≡ binding_faulty r.now n.0 }
{
    let x = x_at(r, n);
    match kind_at(r, n) {
        6 => !below_binder(r, x, n),
        7..=8 => x != binders || 6 <= binders,
        _ => false,
    }
}

// The lowest node that breaks the rules of binding, or the number of nodes.
fn lowest_faulty(r: &[u8]) -> usize
    ensures { (result ≡ lowest_binding r.now) × (result < 256) }
{
    let count = byte_at(r, 0);
    let mut binders = 0;
    for n in 0..count {
        if binding_faulty(r, Node(n as u8), binders) {
            return n;
        }
        binders = binders_with(r, Node(n as u8), binders);
    }
    count
}

// How many binders stand among node n and those before it; binders is the number before it.
fn binders_with(r: &[u8], n: Node, binders: usize) -> usize
    requires { BindersCounted r.now n.0 binders }
    ensures { BindersCounted r.now (n.0 + 1) result }
{
    if is_binder(r, n) {
        binders + 1
    } else {
        binders
    }
}

// Refusals 8, 9 and 10.
pub(crate) fn check_rule(entries: usize, r: &[u8]) -> Result<(), Refusal>
    ensures { result ≡ rule_check entries r.now }
{
    if !sized(r) {
        return Err(Refusal::RuleSize);
    }
    let count = byte_at(r, 0);
    let s = syntax_fault(r, entries);
    if s != count {
        return Err(Refusal::SyntaxFault(Node(s as u8)));
    }
    let b = lowest_faulty(r);
    if b != count {
        return Err(Refusal::BindingFault(Node(b as u8)));
    }
    Ok(())
}

// N, the number of nodes.
pub fn node_count(rule: &[u8]) -> u8
    ensures { result ≡ node_count rule.now }
{
    narrow_at(rule, 0)
}

// Node n: kind, x, y.
pub fn node(rule: &[u8], n: Node) -> Fields
    ensures { result ≡ fields_at rule.now n.0 }
{
    fields_at(rule, n.0)
}

// Whether node n is a binder.
pub fn is_binder(rule: &[u8], n: Node) -> bool
    ensures { result ≡ is_binder rule.now n.0 }
{
    matches!(kind_at(rule, n), 7..=8)
}

// B, the number of binders.
pub fn binder_count(rule: &[u8]) -> u8
    ensures { result ≡ binder_count rule.now }
{
    binders_before(rule, byte_at(rule, 0)) as u8
}

// Whether the node that binds a variable stands before a node.
pub fn bound_before(rule: &[u8], k: Variable, n: Node) -> bool
    ensures { result ≡ ltb (binder_node rule.now k.0) n.0 }
{
    binder_place(rule, usize::from(k.0)) < n.0
}

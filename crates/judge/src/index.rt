// The index: what is worked out once for a query or an audit, and what they read through it.
ghost use Rattle.std.specs.Prelude.{◌≡◌, ◌+◌, ◌*◌, ◌<◌, ◌≤◌, slice_index};
ghost use Rattle.sheet.specs.Contents.{plan_body, rule_body};
ghost use Rattle.sheet.specs.Plan.{label, target};
ghost use Rattle.sheet.specs.Rule.{node_kind, node_x, node_y};
ghost use Rattle.sheet.specs.Bytes.{byte};
ghost use Rattle.judge.specs.Internal.Index.{NodeAt, TransitionAt};

use crate::MOST_BINDERS;
use graph::BYTE_VALUES;
use sheet::{Action, HEAD_LENGTH, Node, State, Variable};

#[derive(Clone, Copy)]
pub(crate) struct Index {
    // Where the rule lies in the sheet, and how many nodes and marks it has.
    pub(crate) rule_at: usize,
    pub(crate) nodes: u8,
    pub(crate) marks: u8,
    // The nodes of the binders, in the order of the variables that they bind, and for an audit where their subtrees end.
    pub(crate) binders: [u8; MOST_BINDERS],
    pub(crate) ends: [u8; MOST_BINDERS],
    // Where the transitions of each state begin and end, and the actions that they have.
    pub(crate) plan: graph::Index,
    // Which formulas each of those actions meets.
    pub(crate) masks: [u32; BYTE_VALUES],
}

// A byte of a node: 1 its kind, 2 its x, 3 its y.
fn node_byte(sheet: &[u8], index: &Index, node: Node, field: usize) -> u8
    requires { NodeAt sheet.now index.now node.0 × (field ≤ 3) }
    ensures { result ≡ byte (rule_body sheet.now) (field + 3 * node.0) }
{
    sheet[index.rule_at + (field + 3 * node.0 as usize)]
}

pub(crate) fn kind_of(sheet: &[u8], index: &Index, node: Node) -> u8
    requires { NodeAt sheet.now index.now node.0 }
    ensures { result ≡ node_kind (rule_body sheet.now) node.0 }
{
    node_byte(sheet, index, node, 1)
}

pub(crate) fn x_of(sheet: &[u8], index: &Index, node: Node) -> u8
    requires { NodeAt sheet.now index.now node.0 }
    ensures { result ≡ node_x (rule_body sheet.now) node.0 }
{
    node_byte(sheet, index, node, 2)
}

pub(crate) fn y_of(sheet: &[u8], index: &Index, node: Node) -> u8
    requires { NodeAt sheet.now index.now node.0 }
    ensures { result ≡ node_y (rule_body sheet.now) node.0 }
{
    node_byte(sheet, index, node, 3)
}

// The node that binds one of the B variables.
pub(crate) fn binder_of(index: &Index, k: Variable) -> Node
    requires { k.0 < 6 }
    ensures { result.0 ≡ slice_index index.now.binders k.0 }
{
    Node(index.binders[k.0 as usize])
}

// A byte of a transition: 5 its action, 6 its target.
fn transition_byte(sheet: &[u8], i: usize, field: usize) -> u8
    requires { TransitionAt sheet.now i × (field ≤ 6) }
    ensures { result ≡ byte (plan_body sheet.now) (field + 3 * i) }
{
    sheet[HEAD_LENGTH + (field + 3 * i)]
}

pub(crate) fn label_of(sheet: &[u8], i: usize) -> Action
    requires { TransitionAt sheet.now i }
    ensures { result.0 ≡ label (plan_body sheet.now) i }
{
    Action(transition_byte(sheet, i, 5))
}

pub(crate) fn target_of(sheet: &[u8], i: usize) -> State
    requires { TransitionAt sheet.now i }
    ensures { result.0 ≡ target (plan_body sheet.now) i }
{
    State(transition_byte(sheet, i, 6))
}

// Where the transitions of a state begin.
pub(crate) fn transitions_begin(index: &Index, state: State) -> usize
    ensures { result ≡ slice_index index.now.plan.firsts state.0 }
{
    index.plan.firsts[state.0 as usize] as usize
}

// Where they end: where those of the next state begin.
pub(crate) fn transitions_end(index: &Index, state: State) -> usize
    ensures { result ≡ slice_index index.now.plan.firsts (state.0 + 1) }
{
    index.plan.firsts[state.0 as usize + 1] as usize
}

// Which action formulas an action meets.
pub(crate) fn mask_of(index: &Index, action: Action) -> u32
    ensures { result ≡ slice_index index.now.masks action.0 }
{
    index.masks[action.0 as usize]
}

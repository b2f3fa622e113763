// Preparing: the numbers that are worked out once for a query or an audit.
ghost use Rattle.std.specs.Prelude.{◌≡◌, ◌<◌, true, Ok};
ghost use Rattle.sheet.specs.Contents.{plan_body};
ghost use Rattle.sheet.specs.Plan.{state_count};
ghost use Rattle.sheet.specs.Reading.{sheet_check};
ghost use Rattle.graph.specs.LoopTest.{loop_free};
ghost use Rattle.judge.specs.Internal.Index.{Prepared};
ghost use Rattle.judge.specs.Internal.Preparing.{Headed, BindersAsked, Binders, EndsAsked, Ends, Masks, RuleTold, StatesAsked, StatesTold};

use crate::MOST_BINDERS;
use crate::index::Index;
use calculus::meeting::meeting;
use graph::searching::{explore, explore_all};
use graph::{BYTE_VALUES, Starts};
use sheet::plan::action_count;
use sheet::reader::{actions_body, plan_body, rule_body};
use sheet::rule::{binder_count, is_binder, node_count, subtree_end};
use sheet::{Action, HEAD_LENGTH, Node, State};

// The nodes of the B binders.
fn binders_of(rule: &[u8]) -> [u8; MOST_BINDERS]
    requires { BindersAsked rule.now }
    ensures { Binders rule.now result }
{
    let mut binders = [0; MOST_BINDERS];
    let mut k = 0;
    for n in 0..node_count(rule) {
        if is_binder(rule, Node(n)) {
            binders[k] = n;
            k += 1;
        }
    }
    binders
}

// Where the subtrees of the B binders end.
fn ends_of(rule: &[u8], binders: &[u8; MOST_BINDERS]) -> [u8; MOST_BINDERS]
    requires { EndsAsked rule.now binders.now }
    ensures { Ends rule.now result }
{
    let mut ends = [0; MOST_BINDERS];
    for k in 0..binder_count(rule) as usize {
        ends[k] = subtree_end(rule, Node(binders[k])) as u8;
    }
    ends
}

// Which formulas each action that a search noted meets.
fn put_masks(
    plan: &[u8],
    actions: &[u8],
    noted: &[bool; BYTE_VALUES],
    masks: &mut [u32; BYTE_VALUES],
)
    ensures { Masks plan.now actions.now noted.now masks.new }
{
    let count = action_count(plan);
    for a in 0..count {
        if noted[a as usize] {
            masks[a as usize] = meeting(actions, count, Action(a));
        }
    }
}

// What the index says of the rule of an accepted sheet, but for the ends; nothing of its plan yet.
pub(crate) fn index_of(sheet: &[u8]) -> Index
    requires { sheet_check sheet.now ≡ Ok tt }
    ensures { Headed sheet.now result }
{
    let rule = rule_body(sheet);
    Index {
        rule_at: HEAD_LENGTH + plan_body(sheet).len() + actions_body(sheet).len(),
        nodes: node_count(rule),
        marks: binder_count(rule) + 1,
        binders: binders_of(rule),
        ends: [0; MOST_BINDERS],
        plan: graph::Index::new(),
        masks: [0; BYTE_VALUES],
    }
}

// Whether no loop can be reached from a state of an accepted sheet; where none can, the index then holds what a query of the state works with.
pub(crate) fn prepare(sheet: &[u8], index: &mut Index, state: State) -> bool
    requires { (sheet_check sheet.now ≡ Ok tt) × Headed sheet.now index.old × (state.0 < state_count (plan_body sheet.now)) }
    ensures value { result ≡ loop_free (plan_body sheet.now) state.0 }
    ensures prepared { result ≡ true → Prepared sheet.now index.new state.0 }
{
    let plan = plan_body(sheet);
    if !explore(plan, &mut index.plan, state) {
        return false;
    }
    put_masks(
        plan,
        actions_body(sheet),
        &index.plan.actions,
        &mut index.masks,
    );
    true
}

// For an audit: what the index says of the rule of an accepted sheet.
pub(crate) fn prepare_rule(sheet: &[u8]) -> Index
    requires { sheet_check sheet.now ≡ Ok tt }
    ensures { RuleTold sheet.now result }
{
    let mut index = index_of(sheet);
    index.ends = ends_of(rule_body(sheet), &index.binders);
    index
}

// For an audit, and like prepare but for the search, which a parameter would not make plainer: whether no loop can be reached from any of some states; where none can, the index then holds what their rows are read with.
pub(crate) fn prepare_states(sheet: &[u8], index: &mut Index, starts: &Starts) -> bool
    requires { StatesAsked sheet.now index.old starts.now }
    ensures { StatesTold sheet.now starts.now index.new result }
{
    let plan = plan_body(sheet);
    if !explore_all(plan, &mut index.plan, starts) {
        return false;
    }
    put_masks(
        plan,
        actions_body(sheet),
        &index.plan.actions,
        &mut index.masks,
    );
    true
}

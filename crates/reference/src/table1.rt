// Table 1, clause by clause.
ghost use Rattle.std.specs.Prelude.{◌≡◌, ◌≤◌, ◌-◌, ◌^◌, Ok};
ghost use Rattle.sheet.specs.Contents.{plan_body, actions_body};
ghost use Rattle.sheet.specs.Plan.{state_count, action_count};
ghost use Rattle.sheet.specs.Reading.{sheet_check};
ghost use Rattle.reference.specs.Internal.Evaluating.{ActionMasks, Preimage, Evaluating, Evaluated};

use crate::sets::{Context, States};
use calculus::meeting::{has_bit, meeting};
use sheet::kinds::NodeKind;
use sheet::plan::{transition, transition_count};
use sheet::reader::{plan_body, rule_body};
use sheet::rule::node;
use sheet::{Action, Fields, Node, Variable};

// For each action the action formulas that it meets, a bit for each entry.
pub(crate) fn meetings(actions: &[u8], count: u8) -> [u32; 256]
    ensures { ActionMasks actions.now count result }
{
    let mut masks = [0; 256];
    for a in 0..count {
        masks[usize::from(a)] = meeting(actions, count, Action(a));
    }
    masks
}

// An accepted sheet of at most 64 states, the action formulas that each of its actions meets, and the set of all its states.
#[derive(Drop)]
pub(crate) struct Judge<'a> {
    pub(crate) sheet: &'a [u8],
    pub(crate) masks: [u32; 256],
    pub(crate) full: States,
    ghost accepted: { sheet_check sheet.now ≡ Ok tt },
    ghost few: { state_count (plan_body sheet.now) ≤ 64 },
    ghost met: { ActionMasks (actions_body sheet.now) (action_count (plan_body sheet.now)) masks },
    ghost whole: { full ≡ 2 ^ state_count (plan_body sheet.now) - 1 },
}

impl<'a> Judge<'a> {
    // The states with a transition whose action meets the formula of the entry into the set.
    fn some(&self, entry: u8, states: States) -> States
        ensures { Preimage (plan_body self.now.sheet.now) self.now.masks entry states result }
    {
        let plan = plan_body(self.sheet);
        let mut found = States::none();
        for i in 0..transition_count(plan) {
            let t = transition(plan, i);
            let met = self.masks[usize::from(t.action.0)];
            if has_bit(met, entry) && states.contains(t.to) {
                found = found.with(t.from);
            }
        }
        found
    }

    // The states in the meaning of node n, in a context: one clause for each line of Table 1. The context has a set for each variable: for one bound above
    // n the set in force, for one bound from n on the set that its fixed point goes on from, the empty set for a least and the full set for a greatest at
    // first. When a fixed point has moved, those of its own kind inside it move the same way and go on from where they were; those of the other kind start
    // anew.
    pub(crate) fn evaluate(&self, n: Node, context: &mut Context) -> States
        requires { Evaluating self.now.sheet.now n.0 context.old }
        ensures { Evaluated self.now.sheet.now n.0 context.old context.new result }
    {
        let rule = rule_body(self.sheet);
        let Fields { kind, x, y } = node(rule, n);
        let Ok(kind) = NodeKind::try_from(kind) else {
            return States::none();
        };
        match kind {
            NodeKind::False => States::none(),
            NodeKind::True => self.full,
            NodeKind::Or => self.evaluate(Node(x), context) | self.evaluate(Node(y), context),
            NodeKind::And => self.evaluate(Node(x), context) & self.evaluate(Node(y), context),
            // A transition leads into the child's meaning.
            NodeKind::Diamond => self.some(x, self.evaluate(Node(y), context)),
            // No transition leads out of it.
            NodeKind::Box => self.full ^ self.some(x, self.full ^ self.evaluate(Node(y), context)),
            NodeKind::Variable => context.set_of(Variable(x)),
            // Its image is added until nothing is new, which no count of rounds tells beforehand. The loop of a greatest one differs from it in each step but
            // one, so they stay two.
            NodeKind::Least => loop {
                let image = self.evaluate(Node(y), context);
                let states = context.set_of(Variable(x));
                let next = states | image;
                if next == states {
                    return states;
                }
                context.put(Variable(x), next);
                context.restart(rule, Node(y), NodeKind::Greatest, self.full);
            },
            // What its image lacks is taken away until nothing is, which no count of rounds tells beforehand.
            NodeKind::Greatest => loop {
                let image = self.evaluate(Node(y), context);
                let states = context.set_of(Variable(x));
                let next = states & image;
                if next == states {
                    return states;
                }
                context.put(Variable(x), next);
                context.restart(rule, Node(y), NodeKind::Least, States::none());
            },
        }
    }
}

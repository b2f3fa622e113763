// The rule that is being made.
use crate::nodes::moved;
use crate::{
    LONGEST_BODY, LONGEST_PATTERN, MOST_BINDERS, MOST_NODES, Oversize, Places, TranslateError,
};
use sheet::rule::{binder_count, node, node_count};
use sheet::{Fields, Node, Refusal, Variable};

// Its nodes and binders so far, its body with them, and slots for what follows the parts that are gone through.
#[derive(Drop)]
pub(crate) struct Draft {
    pub nodes: u8,
    pub binders: u8,
    pub body: [u8; LONGEST_BODY],
    pub slots: Places,
}

impl Draft {
    ghost use Rattle.std.specs.Prelude.{◌≡◌, ◌≤◌, ◌<◌};
    ghost use Rattle.calculus.specs.Trees.{tree_of};
    ghost use Rattle.patterns.specs.Translation.{raised};
    ghost use Rattle.patterns.specs.Internal.Nodes.{with_node, Making, Progressed};
    ghost use Rattle.patterns.specs.Internal.Drafts.{IsNew, NextNode, NextBinder, progress_of};
    ghost use Rattle.patterns.specs.Internal.Answering.{BodyWritten};

    pub(crate) fn new() -> Self
        ensures { IsNew result }
    {
        Draft {
            nodes: 0,
            binders: 0,
            body: [0; LONGEST_BODY],
            slots: [0; LONGEST_PATTERN],
        }
    }

    // The number of one more node.
    pub(crate) fn next_node(&mut self) -> Result<Node, Oversize>
        ensures { NextNode self.old result self.new }
    {
        if MOST_NODES <= self.nodes {
            return Err(Oversize);
        }
        let n = self.nodes;
        self.nodes += 1;
        Ok(Node(n))
    }

    // The variable of one more binder.
    pub(crate) fn next_binder(&mut self) -> Result<Variable, Oversize>
        ensures { NextBinder self.old result self.new }
    {
        if MOST_BINDERS <= self.binders {
            return Err(Oversize);
        }
        let b = self.binders;
        self.binders += 1;
        Ok(Variable(b))
    }

    // Node n: kind, x, y.
    pub(crate) fn put_node(&mut self, n: Node, node: Fields)
        requires { n.0 < 64 }
        ensures { self.new ≡ record self.old { body = with_node self.old.body n.0 node } }
    {
        let at = 1 + 3 * usize::from(n.0);
        self.body[at] = node.kind;
        self.body[at + 1] = node.x;
        self.body[at + 2] = node.y;
    }

    // The sheet's rule, behind the nodes and binders so far.
    pub(crate) fn put_rule(&mut self, rule: &[u8]) -> Result<(), Oversize>
        requires { Making rule.now self.old.nodes self.old.binders self.old.body }
        ensures made { Progressed (raised self.old.binders (tree_of rule.now)) self.old.nodes self.old.binders self.old.body self.new.body (progress_of result self.new.nodes self.new.binders) }
        ensures slots { self.new.slots ≡ self.old.slots }
    {
        let count = node_count(rule);
        let bound = binder_count(rule);
        if MOST_NODES - self.nodes < count || MOST_BINDERS - self.binders < bound {
            return Err(Oversize);
        }
        for i in 0..count {
            let node = moved(node(rule, Node(i)), self.nodes, self.binders);
            self.put_node(Node(self.nodes + i), node);
        }
        self.nodes += count;
        self.binders += bound;
        Ok(())
    }

    // The number of nodes and their bytes, at the front of out.
    pub(crate) fn write(&self, out: &mut [u8]) -> Result<usize, TranslateError>
        requires { self.now.nodes ≤ 64 }
        ensures { BodyWritten self.now.body self.now.nodes out.old result out.new }
    {
        let length = 1 + 3 * usize::from(self.nodes);
        if out.len() < length {
            return Err(TranslateError::Refused(Refusal::OutputShort));
        }
        out[..length].copy_from_slice(&self.body[..length]);
        out[0] = self.nodes;
        Ok(length)
    }
}

// The parts of a pattern become nodes, in preorder. What follows a part is told by a place of the pattern: after the whole, place 0, comes the rule; after the
// first part of a sequence, the sequence's place, its second part and then what follows the sequence; after the part of a repetition, the repetition's
// place, its variable. A second part, and each part of a choice, has what follows the whole of it. The slots have, at the place of each sequence that is
// gone through, what follows it, and at that of each repetition its variable.
use crate::draft::Draft;
use crate::nodes::{binder, modal, pair, variable};
use crate::parts::PartKind;
use crate::{Oversize, Places};
use sheet::Variable;

// What the rule is made of: the sheet's rule, and the pattern with the places of its second parts.
#[derive(Clone, Copy)]
pub(crate) struct Source<'a> {
    pub rule: &'a [u8],
    pub pattern: &'a [u8],
    pub seconds: &'a Places,
}

impl Draft {
    ghost use Rattle.patterns.specs.Internal.Putting.{PartReady, PartDone, AfterReady, AfterDone};

    // The part at a place, before what follows it.
    #[cycle(put_after_put_part)]
    pub(crate) fn put_part(&mut self, source: &Source, at: u8, after: u8) -> Result<(), Oversize>
        requires { PartReady source.now self.old at after }
        ensures { PartDone source.now self.old at after result self.new }
    {
        let every = source.pattern[0] == 1;
        // A readable pattern has no number but those of the kinds.
        let Ok(kind) = PartKind::try_from(source.pattern[at as usize]) else {
            return Ok(());
        };
        match kind {
            PartKind::Entry => {
                let node = self.next_node()?;
                let entry = source.pattern[at as usize + 1];
                self.put_node(node, modal(every, node, entry));
                self.put_after(source, after)
            }
            PartKind::Sequence => {
                self.slots[at as usize] = after;
                self.put_part(source, at + 1, at)
            }
            PartKind::Choice => {
                let node = self.next_node()?;
                self.put_part(source, at + 1, after)?;
                self.put_node(node, pair(every, node, self.nodes));
                self.put_part(source, source.seconds[at as usize], after)
            }
            PartKind::Repetition => {
                let node = self.next_node()?;
                let bound = self.next_binder()?;
                let inner = self.next_node()?;
                self.put_node(node, binder(every, node, bound));
                self.slots[at as usize] = bound.0;
                self.put_after(source, after)?;
                self.put_node(inner, pair(every, inner, self.nodes));
                self.put_part(source, at + 1, at)
            }
        }
    }

    // What follows a part.
    #[cycle(put_after_put_part)]
    fn put_after(&mut self, source: &Source, after: u8) -> Result<(), Oversize>
        requires { AfterReady source.now self.old after }
        ensures { AfterDone source.now self.old after result self.new }
    {
        if after == 0 {
            return self.put_rule(source.rule);
        }
        let slot = self.slots[after as usize];
        if PartKind::try_from(source.pattern[after as usize]) == Ok(PartKind::Sequence) {
            return self.put_part(source, source.seconds[after as usize], slot);
        }
        let node = self.next_node()?;
        self.put_node(node, variable(Variable(slot)));
        Ok(())
    }
}

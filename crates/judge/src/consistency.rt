// Whether the filled cells of a table follow from one another: each under a mark that its node may have, and from filled cells of its row.
ghost use Rattle.std.specs.Prelude.{◌≡◌, ◌<◌, true, ◌≢◌, length, ◌==◌, slice_index};
ghost use Rattle.sheet.specs.Contents.{rule_body};
ghost use Rattle.sheet.specs.Rule.{node_count};
ghost use Rattle.rows.specs.Tables.{filled};
ghost use Rattle.judge.specs.Cells.{cell};
ghost use Rattle.judge.specs.Internal.Deciding.{DecideRequires, FollowRequires};
ghost use Rattle.judge.specs.Internal.Auditing.{successors_hold, row_follows, mark_told, cell_passes, node_passes, state_passes, table_passes, shown_after, ShownToFollow, CellRequires, StateRequires, CellsRequires};

use crate::index::{
    Index, binder_of, kind_of, label_of, mask_of, target_of, transitions_begin, transitions_end,
    x_of, y_of,
};
use crate::marks::{is_outer, opening};
use crate::table::cell_position;
use calculus::meeting::has_bit;
use graph::Starts;
use sheet::kinds::NodeKind;
use sheet::plan::state_count;
use sheet::reader::plan_body;
use sheet::{Node, State, Variable};

// Whether a byte of the table is b.
fn byte_is(table: &[u8], at: usize, b: u8) -> bool
    requires { at < length table.now }
    ensures { result ≡ (slice_index table.now at == b) }
{
    table[at] == b
}

// What is shown to follow under every mark once a cell with byte b has passed: the row of a "some" or an "every" is the same under each. By the number of
// the kind: to read it by name would only add a way out that never comes, here and where a binder's kind is compared with 8, a greatest fixed point.
fn shown_after(kind: u8, b: u8, shown: u8) -> u8
    ensures { result ≡ shown_after kind b shown }
{
    if kind < 4 || 5 < kind { shown } else { b }
}

// What rows are read with: a sheet, what is prepared of it, and the cells.
#[derive(Clone, Copy)]
pub(crate) struct Rows<'a> {
    pub(crate) sheet: &'a [u8],
    pub(crate) index: &'a Index,
    pub(crate) table: &'a [u8],
}

impl<'a> Rows<'a> {
    // Of the cells that the transitions of a state which meet the formula lead to, whether one has byte b, where one is enough, or whether all
    // have.
    fn successors_hold(&self, node: Node, state: State, one: bool, b: u8) -> bool
        requires { FollowRequires self.now.sheet.now self.now.index.now self.now.table.now node.0 state.0 × (filled b ≡ true) }
        ensures { result ≡ successors_hold self.now.sheet.now self.now.table.now node.0 state.0 one b }
    {
        let entry = x_of(self.sheet, self.index, node);
        let child = Node(y_of(self.sheet, self.index, node));
        for i in transitions_begin(self.index, state)..transitions_end(self.index, state) {
            if has_bit(mask_of(self.index, label_of(self.sheet, i)), entry) {
                let at = cell_position(self.index, 0, child, target_of(self.sheet, i));
                if byte_is(self.table, at, b) == one {
                    return one;
                }
            }
        }
        !one
    }

    // Whether a cell's byte b follows from filled cells of its row: the value that decides it from one of them, the other from all.
    fn row_follows(&self, mark: u8, node: Node, state: State, b: u8) -> bool
        requires { DecideRequires self.now.sheet.now self.now.index.now self.now.table.now (cell mark node.0 state.0) × (filled b ≡ true) }
        ensures { result ≡ row_follows self.now.sheet.now self.now.table.now (cell mark node.0 state.0) b }
    {
        let k = kind_of(self.sheet, self.index, node);
        let Ok(kind) = NodeKind::try_from(k) else {
            return b == 1;
        };
        match kind {
            NodeKind::False => b == 1,
            NodeKind::True => b == 2,
            NodeKind::Or | NodeKind::And => {
                let one = (b == 2) == (kind == NodeKind::Or);
                let x = x_of(self.sheet, self.index, node);
                if byte_is(
                    self.table,
                    cell_position(self.index, mark, Node(x), state),
                    b,
                ) == one
                {
                    return one;
                }
                let y = y_of(self.sheet, self.index, node);
                byte_is(
                    self.table,
                    cell_position(self.index, mark, Node(y), state),
                    b,
                )
            }
            NodeKind::Diamond => self.successors_hold(node, state, b == 2, b),
            NodeKind::Box => self.successors_hold(node, state, b == 1, b),
            NodeKind::Variable => {
                let x = x_of(self.sheet, self.index, node);
                let binder = binder_of(self.index, Variable(x));
                if is_outer(Variable(x), mark) {
                    return byte_is(self.table, cell_position(self.index, 0, binder, state), b);
                }
                (kind_of(self.sheet, self.index, binder) == 8) == (b == 2)
            }
            NodeKind::Least | NodeKind::Greatest => {
                let x = x_of(self.sheet, self.index, node);
                let y = y_of(self.sheet, self.index, node);
                let inner = opening(Variable(x), mark);
                byte_is(
                    self.table,
                    cell_position(self.index, inner, Node(y), state),
                    b,
                )
            }
        }
    }

    // Whether a mark is 0 or that of a binder above a node.
    fn mark_allowed(&self, mark: u8, node: Node) -> bool
        requires { mark < 7 }
        ensures { result ≡ mark_told self.now.index.now mark node.0 }
    {
        if mark == 0 {
            return true;
        }
        let k = mark as usize - 1;
        self.index.binders[k] < node.0 && node.0 < self.index.ends[k]
    }

    // Whether a cell that is filled with byte b has a mark that its node may have and follows. shown, where it is not 0, is a byte already found
    // to follow from its row.
    fn cell_passes(&self, mark: u8, node: Node, state: State, b: u8, shown: u8) -> bool
        requires { CellRequires self.now.sheet.now self.now.index.now self.now.table.now (cell mark node.0 state.0) b × (b ≢ 0) × ShownToFollow self.now.sheet.now self.now.table.now (cell mark node.0 state.0) shown }
        ensures { result ≡ cell_passes self.now.sheet.now self.now.table.now (cell mark node.0 state.0) }
    {
        self.mark_allowed(mark, node) && (b == shown || self.row_follows(mark, node, state, b))
    }

    // Whether each cell of a node and a state passes, under every mark.
    fn node_passes(&self, node: Node, state: State) -> bool
        requires { StateRequires self.now.sheet.now self.now.index.now self.now.table.now state.0 × (node.0 < node_count (rule_body self.now.sheet.now)) }
        ensures { result ≡ node_passes self.now.sheet.now self.now.table.now state.0 node.0 }
    {
        let start = cell_position(self.index, 0, node, state);
        let mut shown = 0;
        for m in 0..self.index.marks {
            let b = self.table[start + m as usize];
            if b == 0 {
                continue;
            }
            if !self.cell_passes(m, node, state, b, shown) {
                return false;
            }
            shown = shown_after(kind_of(self.sheet, self.index, node), b, shown);
        }
        true
    }

    // Whether each cell of a state passes.
    fn state_passes(&self, state: State) -> bool
        requires { StateRequires self.now.sheet.now self.now.index.now self.now.table.now state.0 }
        ensures { result ≡ state_passes self.now.sheet.now self.now.table.now state.0 }
    {
        for n in 0..self.index.nodes {
            if !self.node_passes(Node(n), state) {
                return false;
            }
        }
        true
    }

    // Whether each cell of a table passes. Only the states in starts have a filled cell, and the others are passed over.
    pub(crate) fn table_passes(&self, starts: &Starts) -> bool
        requires { CellsRequires self.now.sheet.now self.now.index.now self.now.table.now starts.now }
        ensures { result ≡ table_passes self.now.sheet.now self.now.table.now }
    {
        for s in 0..state_count(plan_body(self.sheet)) {
            if starts[s as usize] != 0 && !self.state_passes(State(s)) {
                return false;
            }
        }
        true
    }
}

// The table's bytes: how many there are, where a cell's byte is, what it says, and how it is filled; the count after the cells.
ghost use Rattle.std.specs.Prelude.{◌≡◌, ◌+◌, ◌*◌, ◌<◌, ◌≤◌, ◌++◌, length, take, drop, slice_index, slice_set};
ghost use Rattle.rows.specs.Tables.{byte_of};
ghost use Rattle.judge.specs.Cells.{cell_bytes, count_bytes, table_bytes_for, table_bytes};
ghost use Rattle.judge.specs.StoredCount.{number_at, in_four_bytes};
ghost use Rattle.judge.specs.Internal.Index.{HeadRight};
ghost use Rattle.judge.specs.Internal.Judging.{product_bound};
ghost use Rattle.judge.specs.Internal.Packed.{Known, OneVisitMore, verdict_in, packed_limit};

use crate::COUNT_BYTES;
use crate::index::Index;
use crate::packed::Packed;
use sheet::plan::state_count;
use sheet::reader::{plan_body, rule_body};
use sheet::rule::{binder_count, node_count};
use sheet::{Node, State};

// A byte for each cell: states × nodes × (binders + 1).
pub(crate) fn cell_bytes(sheet: &[u8]) -> usize
    ensures { (result ≡ cell_bytes sheet.now) × (result ≤ product_bound) }
{
    let rule = rule_body(sheet);
    let states = usize::from(state_count(plan_body(sheet)));
    let nodes = usize::from(node_count(rule));
    let marks = usize::from(binder_count(rule)) + 1;
    states * nodes * marks
}

// The same, with the numbers of nodes and marks read from the index.
pub(crate) fn cell_bytes_prepared(sheet: &[u8], index: &Index) -> usize
    requires { HeadRight sheet.now index.now }
    ensures { (result ≡ cell_bytes sheet.now) × (result ≤ product_bound) }
{
    let states = usize::from(state_count(plan_body(sheet)));
    states * index.nodes as usize * index.marks as usize
}

// The bytes of a table that has so many bytes of cells: the cells, and the count after them.
pub(crate) fn table_bytes_for(cells: usize) -> usize
    requires { cells ≤ product_bound }
    ensures { result ≡ table_bytes_for cells }
{
    cells + COUNT_BYTES
}

// How many bytes a sheet's table has, the count included: what clearing, a query, stored_count and audit must be lent at least.
pub fn table_size(sheet: &[u8]) -> usize
    ensures { result ≡ table_bytes sheet.now }
{
    table_bytes_for(cell_bytes(sheet))
}

// The number that four bytes hold, low byte first.
pub(crate) fn number_at(table: &[u8], at: usize) -> u32
    requires { at + count_bytes ≤ length table.now }
    ensures { result ≡ number_at table.now at }
{
    u32::from_le_bytes([table[at], table[at + 1], table[at + 2], table[at + 3]])
}

pub(crate) fn put_number(table: &mut [u8], at: usize, n: u32)
    requires { at + count_bytes ≤ length table.old }
    ensures { table.new ≡ take at table.old ++ (in_four_bytes n ++ drop (at + count_bytes) table.old) }
{
    table[at..at + COUNT_BYTES].copy_from_slice(&n.to_le_bytes());
}

// The byte of the table that holds a cell.
pub(crate) fn cell_position(index: &Index, mark: u8, node: Node, state: State) -> usize
    ensures { result ≡ (state.0 * index.now.nodes + node.0) * index.now.marks + mark }
{
    (state.0 as usize * index.nodes as usize + node.0 as usize) * index.marks as usize
        + mark as usize
}

// What a filled byte says, with no visit.
pub(crate) fn known_verdict(b: u8) -> Packed
    ensures { Known b result.0 }
{
    Packed(u32::from(b == 2))
}

// The cell at a byte is given its value, and counts as one visit more.
pub(crate) fn fill_cell(table: &mut [u8], at: usize, w: Packed) -> Packed
    requires { (at < length table.old) × (w.0 < packed_limit) }
    ensures one_visit_more { OneVisitMore w.0 result.0 }
    ensures table_after { table.new ≡ slice_set table.old at (byte_of (verdict_in w.0)) }
{
    table[at] = if w.is_true() { 2 } else { 1 };
    Packed(w.0 + 2)
}

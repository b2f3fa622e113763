// A query: the verdict of a sheet at a state, with the cells that it needs filled in a lent table.
ghost use Rattle.judge.specs.Internal.Index.{QueryRequires};
ghost use Rattle.judge.specs.Querying.{Queries};

use crate::counting::right_count;
use crate::deciding::Prepared;
use crate::index::Index;
use crate::preparing::{index_of, prepare};
use crate::table::{cell_bytes_prepared, put_number};
use crate::{Judged, QueryError};
use sheet::plan::state_count;
use sheet::reader::{check, plan_body};
use sheet::{Node, Refusal, State};

// The query with all prepared: the root's cell is decided, and the count grows by the visits.
fn judge_prepared(
    sheet: &[u8],
    index: &Index,
    state: State,
    table: &mut [u8],
) -> Result<Judged, QueryError>
    requires { QueryRequires sheet.now index.now state.0 }
    ensures { Queries sheet.now state.0 table.old result table.new }
{
    let cells = cell_bytes_prepared(sheet, index);
    let stored = right_count(table, cells)?;
    let prepared = Prepared { sheet, index };
    let w = prepared.decide(&mut table[..cells], 0, Node(0), state);
    let visits = w.visits();
    let count = stored + visits as u32;
    put_number(table, cells, count);
    Ok(Judged {
        verdict: w.is_true(),
        visits,
    })
}

// "A query takes a sheet, a state s and a table. It gives the solution at (0, 0, s)", fills the needed cells that were empty, reports how
// many, and adds them to the count.
pub fn query(sheet: &[u8], state: State, table: &mut [u8]) -> Result<Judged, QueryError>
    ensures { Queries sheet.now state.0 table.old result table.new }
{
    check(sheet)?;
    if state_count(plan_body(sheet)) <= state.0 {
        return Err(QueryError::Refused(Refusal::NoSuchState));
    }
    let mut index = index_of(sheet);
    if !prepare(sheet, &mut index, state) {
        return Err(QueryError::Refused(Refusal::Loop));
    }
    judge_prepared(sheet, &index, state, table)
}

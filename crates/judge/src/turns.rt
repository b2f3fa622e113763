// Queries in turn: several states on one table, with one preparation, up to the first whose verdict is false.
ghost use Rattle.std.specs.Prelude.{◌≤◌};
ghost use Rattle.judge.specs.InTurn.{QueriesInTurn};
ghost use Rattle.judge.specs.Internal.Turns.{StatesMarked, EachPrepared, WalkRequires, WalkedInTurn};

use crate::counting::right_count;
use crate::deciding::Prepared;
use crate::index::Index;
use crate::preparing::{prepare_rule, prepare_states};
use crate::table::{cell_bytes_prepared, put_number};
use crate::{JudgedInTurn, QueryError};
use graph::{MOST_STATES, Starts};
use sheet::plan::state_count;
use sheet::reader::{check, plan_body};
use sheet::{Node, Refusal, State};

// The states of a list, named in an array. Refusal 11 where the plan, which has so many states, lacks one.
fn marked_states(states: &[u8], count: u8) -> Result<Starts, Refusal>
    requires { count ≤ 128 }
    ensures { StatesMarked states.now count result }
{
    let mut starts = [0; MOST_STATES];
    for state in states {
        if count <= *state {
            return Err(Refusal::NoSuchState);
        }
        starts[usize::from(*state)] = 1;
    }
    Ok(starts)
}

// The cells of the states, each decided with the table so far, up to the first whose verdict is false.
fn walk_states(sheet: &[u8], index: &Index, states: &[u8], table: &mut [u8]) -> JudgedInTurn
    requires { WalkRequires sheet.now index.now states.now table.old }
    ensures { WalkedInTurn sheet.now states.now table.old result.passed result.visits table.new }
{
    let prepared = Prepared { sheet, index };
    let mut visits = 0;
    for (passed, state) in states.iter().enumerate() {
        let w = prepared.decide(table, 0, Node(0), State(*state));
        visits += w.visits();
        if !w.is_true() {
            return JudgedInTurn { passed, visits };
        }
    }
    JudgedInTurn {
        passed: states.len(),
        visits,
    }
}

// The queries with all prepared: the states are walked along, and the count grows by the visits.
fn walk_prepared(
    sheet: &[u8],
    index: &Index,
    states: &[u8],
    table: &mut [u8],
) -> Result<JudgedInTurn, QueryError>
    requires { EachPrepared sheet.now index.now states.now }
    ensures { QueriesInTurn sheet.now states.now table.old result table.new }
{
    let cells = cell_bytes_prepared(sheet, index);
    let stored = right_count(table, cells)?;
    let walked = walk_states(sheet, index, states, &mut table[..cells]);
    let count = stored + walked.visits as u32;
    put_number(table, cells, count);
    Ok(walked)
}

// Queries the states of a list, in order up to the first whose verdict is false, with the sheet read, the plan searched and the table
// scanned once. Refusals 11 and 12 look at every state of the list, also behind that one.
pub fn query_in_turn(
    sheet: &[u8],
    states: &[u8],
    table: &mut [u8],
) -> Result<JudgedInTurn, QueryError>
    ensures { QueriesInTurn sheet.now states.now table.old result table.new }
{
    check(sheet)?;
    let starts = marked_states(states, state_count(plan_body(sheet)))?;
    let mut index = prepare_rule(sheet);
    if !prepare_states(sheet, &mut index, &starts) {
        return Err(QueryError::Refused(Refusal::Loop));
    }
    walk_prepared(sheet, &index, states, table)
}

// The public call: refusals in order, the benches' needs, the visits dealt, and then the queries.
ghost use Rattle.std.specs.Prelude.{◌≡◌};
ghost use Rattle.allowance.specs.Granting.{Grants};
ghost use Rattle.allowance.specs.Internal.Benches.{NeedsRequire, FindsNeeds, QueriesRequire, QueriesBenches, grants_in};

use crate::benches::{query_at, would_answer};
use crate::dealing::deal;
use crate::{Bench, GrantError, MOST_BENCHES};
use judge::table::table_size;
use sheet::State;
use sheet::decode::slice_of;
use sheet::reader::check;

// The needs of the benches and the verdicts of their queries, or the lowest bench's refusal. No table changes.
fn find_needs(
    sheet: &[u8],
    states: &[u8],
    tables: &[u8],
    size: usize,
    benches: &mut [Bench],
) -> Result<(), GrantError>
    requires { NeedsRequire sheet.now states.now size benches.old }
    ensures { FindsNeeds sheet.now states.now tables.now result benches.new }
{
    for (i, &state) in states.iter().enumerate() {
        let judged = would_answer(sheet, State(state), slice_of(tables, i * size, size))?;
        benches[i] = Bench::asked(judged);
    }
    Ok(())
}

// Each bench that is granted its whole need queries in its own table, unless that need is 0. What both functions take is no struct: the tables are shared in
// one and lent to change in the other.
fn query_granted(sheet: &[u8], states: &[u8], tables: &mut [u8], size: usize, benches: &mut [Bench])
    requires { QueriesRequire sheet.now states.now tables.old size benches.old }
    ensures { QueriesBenches sheet.now states.now tables.old (grants_in benches.old) benches.new tables.new }
{
    for (i, &state) in states.iter().enumerate() {
        let bench = benches[i];
        if bench.grant < bench.need {
            benches[i] = Bench::short(bench.need, bench.grant);
        } else if bench.need == 0 {
            benches[i] = Bench::idle(bench.grant, bench.verdict);
        } else {
            let answer = query_at(sheet, State(state), tables, i * size, size);
            benches[i] = Bench::queried(bench.need, bench.grant, answer);
        }
    }
}

// "A controller grants V visits to k benches on one sheet": for each bench its need, its grant, whether it is short, verdict and visits, and from the
// number of benches on no bench. V is the allowance; the tables lie end to end from the start of the buffer. A refused call changes no table.
pub fn grant(
    sheet: &[u8],
    states: &[u8],
    allowance: u32,
    tables: &mut [u8],
) -> Result<[Bench; MOST_BENCHES], GrantError>
    ensures { Grants sheet.now states.now allowance tables.old result tables.new }
{
    let k = states.len();
    if k == 0 || MOST_BENCHES < k {
        return Err(GrantError::BenchCountWrong);
    }
    check(sheet)?;
    let size = table_size(sheet);
    let mut benches = [Bench::default(); MOST_BENCHES];
    let asked = &mut benches[..k];
    find_needs(sheet, states, tables, size, asked)?;
    deal(asked, allowance as usize);
    query_granted(sheet, states, tables, size, asked);
    Ok(benches)
}

// The benches' tables, which lie end to end in one buffer, and what a query on one of them would answer.
ghost use Rattle.std.specs.Prelude.{◌≡◌, ◌+◌, ◌≤◌, length};
ghost use Rattle.sheet.specs.Bytes.{slice};
ghost use Rattle.judge.specs.LargestTable.{largest_table};
ghost use Rattle.judge.specs.Querying.{queried_of};
ghost use Rattle.allowance.specs.Internal.Copies.{queried_in};

use judge::querying::query;
use judge::{Judged, LARGEST_TABLE, QueryError};
use sheet::State;

// Copies are made in three sizes, so that the copy of a small table is quickly made.
const SMALL_COPY: usize = 2048;

const MIDDLE_COPY: usize = 8192;

// The query on a copy of the table, made of N bytes.
fn query_copy<const N: usize>(
    sheet: &[u8],
    state: State,
    table: &[u8],
) -> Result<Judged, QueryError>
    requires room { length table.now ≤ N }
    requires largest { N ≤ largest_table }
    ensures { result ≡ queried_of sheet.now state.0 table.now }
{
    let mut room = [0u8; N];
    let copy = &mut room[..table.len()];
    copy.copy_from_slice(table);
    query(sheet, state, copy)
}

// What a query would answer on a table, which stays as it is: the query runs on a copy, one bench's at a time.
pub(crate) fn would_answer(sheet: &[u8], state: State, table: &[u8]) -> Result<Judged, QueryError>
    requires { length table.now ≤ largest_table }
    ensures { result ≡ queried_of sheet.now state.0 table.now }
{
    let size = table.len();
    if size <= SMALL_COPY {
        query_copy::<SMALL_COPY>(sheet, state, table)
    } else if size <= MIDDLE_COPY {
        query_copy::<MIDDLE_COPY>(sheet, state, table)
    } else {
        query_copy::<LARGEST_TABLE>(sheet, state, table)
    }
}

// A query in the part of the buffer that is a bench's table; the place and the size are given, since all tables are lent as one buffer.
pub(crate) fn query_at(
    sheet: &[u8],
    state: State,
    tables: &mut [u8],
    at: usize,
    size: usize,
) -> Result<Judged, QueryError>
    requires { at + size ≤ length tables.old }
    ensures value { result ≡ queried_of sheet.now state.0 (slice tables.old at size) }
    ensures tables_after { tables.new ≡ queried_in sheet.now state.0 tables.old at size }
{
    query(sheet, state, &mut tables[at..at + size])
}

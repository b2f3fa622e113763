// The count that a table carries: read as it stands, for a progress bar, and compared with the cells before a query takes the table.
ghost use Rattle.std.specs.Prelude.{◌≡◌, ◌≤◌};
ghost use Rattle.judge.specs.Counting.{ReadsCount};
ghost use Rattle.judge.specs.Internal.Judging.{product_bound, right_count};

use crate::QueryError;
use crate::scanning::scan;
use crate::table::{cell_bytes, number_at, table_bytes_for};
use sheet::Refusal;
use sheet::reader::check;

// The count as it stands, whatever the cells hold; nothing is changed.
pub fn stored_count(sheet: &[u8], table: &[u8]) -> Result<u32, Refusal>
    ensures { ReadsCount sheet.now table.now result }
{
    check(sheet)?;
    let cells = cell_bytes(sheet);
    if table.len() < table_bytes_for(cells) {
        return Err(Refusal::TableShort);
    }
    Ok(number_at(table, cells))
}

// The count of a table that a query takes: it is the number of filled cells. Refusals 20, 21 and 35.
pub(crate) fn right_count(table: &[u8], cells: usize) -> Result<u32, QueryError>
    requires { cells ≤ product_bound }
    ensures { result ≡ right_count cells table.now }
{
    if table.len() < table_bytes_for(cells) {
        return Err(QueryError::Refused(Refusal::TableShort));
    }
    let filled = scan(&table[..cells])?;
    let stored = number_at(table, cells);
    if stored as usize != filled {
        return Err(QueryError::WrongCount);
    }
    Ok(stored)
}

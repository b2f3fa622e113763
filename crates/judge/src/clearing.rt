// Clearing: the table of a sheet is made empty.
ghost use Rattle.judge.specs.Clearing.{Clears};

use crate::table::{cell_bytes, table_bytes_for};
use sheet::Refusal;
use sheet::reader::check;

// "Clearing sets them to 0; it doesn't look for loops.": the cells, and the count after them.
pub fn clear(sheet: &[u8], table: &mut [u8]) -> Result<(), Refusal>
    ensures { Clears sheet.now table.old result table.new }
{
    check(sheet)?;
    let cells = cell_bytes(sheet);
    let size = table_bytes_for(cells);
    if table.len() < size {
        return Err(Refusal::TableShort);
    }
    table[..size].fill(0);
    Ok(())
}

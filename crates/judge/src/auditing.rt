// The audit of a filled table: whether its count is right and its filled cells follow from one another. Nothing is changed.
ghost use Rattle.judge.specs.Auditing.{Audits};

use crate::consistency::Rows;
use crate::preparing::{prepare_rule, prepare_states};
use crate::scanning::scan_states;
use crate::table::{cell_bytes_prepared, number_at, table_bytes_for};
use graph::MOST_STATES;
use sheet::Refusal;
use sheet::reader::check;

// "Say yes exactly when the stored count is right", and each filled cell has a mark that its node may have and follows from filled cells of its row.
pub fn audit(sheet: &[u8], table: &[u8]) -> Result<bool, Refusal>
    ensures { Audits sheet.now table.now result }
{
    check(sheet)?;
    let mut index = prepare_rule(sheet);
    let cells = cell_bytes_prepared(sheet, &index);
    if table.len() < table_bytes_for(cells) {
        return Err(Refusal::TableShort);
    }
    let width = index.nodes as usize * index.marks as usize;
    let mut starts = [0u8; MOST_STATES];
    let filled = scan_states(&table[..cells], width, &mut starts)?;
    if !prepare_states(sheet, &mut index, &starts) {
        return Err(Refusal::Loop);
    }
    let stored = number_at(table, cells);
    let rows = Rows {
        sheet,
        index: &index,
        table,
    };
    Ok(stored as usize == filled && rows.table_passes(&starts))
}

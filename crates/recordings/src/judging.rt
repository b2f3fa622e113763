// Whether the rule fails on a run: a query of the sheet of its chain.
ghost use Rattle.std.specs.Prelude.{◌≡◌, ◌≤◌, not};
ghost use Rattle.judge.specs.Cells.{table_bytes};
ghost use Rattle.judge.specs.LargestTable.{largest_table};
ghost use Rattle.recordings.specs.Shortest.{holds_on, fails_at};
ghost use Rattle.recordings.specs.Internal.Judging.{false_on, false_on_zeros, table_room};

use crate::chains::{CHAIN_SHEET_ROOM, Recording};
use judge::LARGEST_TABLE;
use judge::querying::query;
use judge::table::table_size;
use sheet::State;

// Tables are made in three sizes, so that a small one is quickly made: a judgement takes a table of zeros, and most rules need few bytes.
const SMALL_TABLE: usize = 2048;

const MIDDLE_TABLE: usize = 8192;

// Whether a query of state 0 gives the verdict false, as a refused one does too.
fn false_on(sheet: &[u8], table: &mut [u8]) -> bool
    ensures { result ≡ false_on sheet.now table.old }
{
    !query(sheet, State(0), table).is_ok_and(|judged| judged.verdict)
}

// The same on a table of N zeros.
fn false_on_zeros<const N: usize>(sheet: &[u8]) -> bool
    requires { N ≤ largest_table }
    ensures { result ≡ false_on_zeros sheet.now N }
{
    let mut table = [0u8; N];
    false_on(sheet, &mut table)
}

// The same on a table of zeros, of a size that the table of an accepted sheet fits into.
fn verdict_false(sheet: &[u8]) -> bool
    ensures { result ≡ false_on_zeros sheet.now (table_room (table_bytes sheet.now)) }
{
    let size = table_size(sheet);
    if size <= SMALL_TABLE {
        false_on_zeros::<SMALL_TABLE>(sheet)
    } else if size <= MIDDLE_TABLE {
        false_on_zeros::<MIDDLE_TABLE>(sheet)
    } else {
        false_on_zeros::<LARGEST_TABLE>(sheet)
    }
}

impl Recording<'_> {
    // Whether the rule fails on the run.
    fn fails(self) -> bool
        ensures { result ≡ not (holds_on self.entry.sheet.now self.entry.run.now) }
    {
        let mut room = [0u8; CHAIN_SHEET_ROOM];
        let n = self.put_sheet(&mut room);
        verdict_false(&room[..n])
    }

    // Whether it has a beginning of n actions and the rule fails on it.
    pub(crate) fn fails_at(self, n: usize) -> bool
        ensures { result ≡ fails_at self.entry.sheet.now self.entry.run.now n }
    {
        n <= self.run.len() && self.beginning(n).fails()
    }
}

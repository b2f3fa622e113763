// The report: refusals in order, then the lines and the total.
ghost use Rattle.std.specs.Prelude.{◌≡◌};
ghost use Rattle.report.specs.Text.{total_line};
ghost use Rattle.report.specs.Reporting.{WritesReport};
ghost use Rattle.report.specs.Internal.Lines.{FitsAt, PutsAt, LinesRequire, AddsLines};

use crate::line::add_line;
use crate::{LEAST_OUTPUT, MOST_QUERIES, ReportError, Tally};
use judge::clearing::clear;
use judge::counting::stored_count;
use sheet::{Refusal, State};
use text::Writer;

// Runs the queries in order on a cleared table, and puts their lines at the start of out.
fn put_lines(sheet: &[u8], states: &[u8], table: &mut [u8], out: &mut [u8]) -> Tally
    requires { LinesRequire sheet.now states.now table.old out.old }
    ensures { AddsLines sheet.now states.now table.old out.old result table.new out.new }
{
    let mut tally = Tally {
        visits: 0,
        length: 0,
    };
    for &state in states {
        add_line(sheet, State(state), table, out, &mut tally);
    }
    tally
}

// The last line: `total`, a space, the visits, and a line feed.
fn put_total(tally: Tally, out: &mut [u8]) -> usize
    requires { FitsAt (total_line tally.visits) tally.length out.old }
    ensures { PutsAt (total_line tally.visits) tally.length out.old result out.new }
{
    let mut writer = Writer::at(tally.length, out);
    writer.put(b"total ");
    writer.put_decimal(tally.visits as u64);
    writer.put(b"\n");
    writer.place
}

// "It clears the table, runs a list of up to 64 queries (state bytes) on one sheet and writes a line for each to an output buffer": the length of the
// text. A refused report changes neither buffer.
pub fn report(
    sheet: &[u8],
    states: &[u8],
    table: &mut [u8],
    out: &mut [u8],
) -> Result<usize, ReportError>
    ensures { WritesReport sheet.now states.now table.old out.old result table.new out.new }
{
    if MOST_QUERIES < states.len() {
        return Err(ReportError::TooManyQueries);
    }
    if out.len() < LEAST_OUTPUT {
        // What clearing refuses comes first: reading the count refuses the same, and changes nothing.
        stored_count(sheet, table)?;
        return Err(ReportError::Refused(Refusal::OutputShort));
    }
    clear(sheet, table)?;
    let tally = put_lines(sheet, states, table, out);
    Ok(put_total(tally, out))
}

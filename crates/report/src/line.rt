// One line of a report: a query is run, its line is put behind those before it, and the tally is brought up to date.
ghost use Rattle.judge.specs.Querying.{reported_query};
ghost use Rattle.report.specs.Text.{line_of, line_with};
ghost use Rattle.report.specs.Internal.Lines.{FitsAt, PutsAt, LineRequires, AddsLine};

use crate::Tally;
use judge::querying::query;
use judge::{Judged, QueryError};
use sheet::State;
use text::Writer;

// A state, a word and a number, one space between, and a line feed. The place stands beside the buffer, since the tally holds it between the lines.
fn put_words(state: State, word: &[u8], visits: usize, at: usize, out: &mut [u8]) -> usize
    requires { FitsAt (line_with state.0 word.now visits) at out.old }
    ensures { PutsAt (line_with state.0 word.now visits) at out.old result out.new }
{
    let mut writer = Writer::at(at, out);
    writer.put_decimal(u64::from(state.0));
    writer.put(b" ");
    writer.put(word);
    writer.put(b" ");
    writer.put_decimal(visits as u64);
    writer.put(b"\n");
    writer.place
}

// The line of a query, behind the lines that the tally counts.
fn put_line(state: State, answer: Result<Judged, QueryError>, tally: Tally, out: &mut [u8]) -> usize
    requires { FitsAt (line_of state.0 (reported_query answer)) tally.length out.old }
    ensures { PutsAt (line_of state.0 (reported_query answer)) tally.length out.old result out.new }
{
    match answer {
        Ok(
            Judged {
                verdict: true,
                visits,
            },
        ) => put_words(state, b"true", visits, tally.length, out),
        Ok(
            Judged {
                verdict: false,
                visits,
            },
        ) => put_words(state, b"false", visits, tally.length, out),
        Err(_) => put_words(state, b"refused", 0, tally.length, out),
    }
}

// Runs a query, puts its line, and answers the tally brought up to date: the visits are added, and the line ends here.
fn line_added(sheet: &[u8], state: State, table: &mut [u8], out: &mut [u8], tally: Tally) -> Tally
    requires { LineRequires sheet.now state.0 table.old out.old tally }
    ensures { AddsLine sheet.now state.0 table.old out.old tally result table.new out.new }
{
    let answer = query(sheet, state, table);
    let length = put_line(state, answer, tally, out);
    Tally {
        visits: tally.visits + answer.map_or(0, |judged| judged.visits),
        length,
    }
}

// The same with the tally lent, the form that the project gives a running tally.
pub(crate) fn add_line(
    sheet: &[u8],
    state: State,
    table: &mut [u8],
    out: &mut [u8],
    tally: &mut Tally,
)
    requires { LineRequires sheet.now state.0 table.old out.old tally.old }
    ensures { AddsLine sheet.now state.0 table.old out.old tally.old tally.new table.new out.new }
{
    *tally = line_added(sheet, state, table, out, *tally);
}

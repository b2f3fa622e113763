// The line that the program writes, put together in a buffer.
ghost use Rattle.std.specs.Prelude.{◌≤◌, Ok, length};
ghost use Rattle.streams.specs.Counts.{IsPrefixLen};
ghost use Rattle.text.specs.Placing.{Puts};
ghost use Rattle.plan_judge.specs.Line.{line_of, line_length};

use judge::{Judged, QueryError};
use sheet::Numbered;
use text::{REFUSAL_LENGTH, Writer};

// Room for the line of a refusal is room for every line.
pub(crate) const LINE_LENGTH: usize = REFUSAL_LENGTH;

fn put_verdict(judged: Judged, out: &mut [u8]) -> usize
    requires { line_length ≤ length out.old }
    ensures { Puts (line_of (Ok judged)) result out.old out.new }
{
    let mut line = Writer::new(out);
    line.put_bool(judged.verdict);
    line.put(b" ");
    line.put_decimal(judged.visits as u64);
    line.put(b"\n");
    line.place
}

// Puts the line of an answer at the start of out, and answers its length.
pub(crate) fn put_line(answer: Result<Judged, QueryError>, out: &mut [u8]) -> usize
    requires { line_length ≤ length out.old }
    ensures prefix_len { IsPrefixLen result out.new }
    ensures puts { Puts (line_of answer) result out.old out.new }
{
    match answer {
        Ok(judged) => put_verdict(judged, out),
        Err(e) => text::put_refusal(e.number(), e.place(), 0, out),
    }
}

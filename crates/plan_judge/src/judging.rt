// From the bytes that were read to the line.
ghost use Rattle.std.specs.Prelude.{◌≤◌, ◌≡◌, length};
ghost use Rattle.streams.specs.Counts.{IsPrefixLen};
ghost use Rattle.text.specs.Placing.{Puts};
ghost use Rattle.plan_judge.specs.Line.{line_length};
ghost use Rattle.plan_judge.specs.Program.{program_of, program_line};
ghost use Rattle.plan_judge.specs.Buffers.{input_length, PutsLineOfFile};

use crate::line::put_line;
use judge::clearing::clear;
use judge::querying::query;
use judge::{Judged, LARGEST_TABLE, QueryError};
use sheet::{LONGEST, State};

// One byte more than the longest sheet, so that a longer input is seen to be too long and is not read to its end.
pub(crate) const INPUT_LENGTH: usize = LONGEST + 1;

// Clears a table and queries state 0; a refusal of either is the answer.
fn judge_start(sheet: &[u8]) -> Result<Judged, QueryError>
    ensures { result ≡ program_of sheet.now }
{
    let mut table = [0u8; LARGEST_TABLE];
    clear(sheet, &mut table)?;
    query(sheet, State(0), &mut table)
}

// Puts the line of a sheet at the start of text, and answers its length.
fn judge_line(sheet: &[u8], text: &mut [u8]) -> usize
    requires { line_length ≤ length text.old }
    ensures prefix_len { IsPrefixLen result text.new }
    ensures puts { Puts (program_line sheet.now) result text.old text.new }
{
    put_line(judge_start(sheet), text)
}

// Puts the line of a file of which n bytes were read into input: all of them, or as many as input holds. The buffer and n, and not the slice of n bytes:
// that the buffer is long enough for every sheet is asked of it.
pub(crate) fn judge_input(input: &[u8], n: usize, text: &mut [u8]) -> usize
    requires input_len { length input.now ≡ input_length }
    requires prefix_len { IsPrefixLen n input.now }
    requires line_length_in_bounds { line_length ≤ length text.old }
    ensures result_len { IsPrefixLen result text.new }
    ensures puts_line_of_file { PutsLineOfFile input.now n result text.old text.new }
{
    judge_line(&input[..n], text)
}

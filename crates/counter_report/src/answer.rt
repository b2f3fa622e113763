// From the bytes that were read to the text.
ghost use Rattle.std.specs.Prelude.{◌≤◌, ◌≡◌, length};
ghost use Rattle.streams.specs.Counts.{IsPrefixLen};
ghost use Rattle.text.specs.Placing.{Puts};
ghost use Rattle.report.specs.Reporting.{least_output};
ghost use Rattle.counter_report.specs.Input.{input_length};
ghost use Rattle.counter_report.specs.Program.{text_on};
ghost use Rattle.counter_report.specs.Buffers.{PutsTextOfFile};

use crate::reading::count_read;
use judge::LARGEST_TABLE;
use report::reporting::report;
use sheet::Numbered;

// Puts the report on a sheet and a list of states at the start of text, or the line of its refusal, and answers the length.
fn report_text(sheet: &[u8], states: &[u8], text: &mut [u8]) -> usize
    requires { least_output ≤ length text.old }
    ensures prefix_len { IsPrefixLen result text.new }
    ensures puts { Puts (text_on sheet.now states.now) result text.old text.new }
{
    let mut table = [0u8; LARGEST_TABLE];
    match report(sheet, states, &mut table, text) {
        Ok(length) => length,
        Err(e) => text::put_refusal(e.number(), e.place(), 0, text),
    }
}

// Puts the text of a file of which n bytes were read into input: all of them, or as many as are needed. Where the file ends within its states, its sheet is
// empty, and the states have bytes of the buffer that are not read: so the buffer and n, and not the slice of n bytes.
pub(crate) fn report_input(input: &[u8], n: usize, text: &mut [u8]) -> usize
    requires input_len { length input.now ≡ input_length }
    requires prefix_len { IsPrefixLen n input.now }
    requires least_output_in_bounds { least_output ≤ length text.old }
    ensures result_len { IsPrefixLen result text.new }
    ensures puts_text_of_file { PutsTextOfFile input.now n result text.old text.new }
{
    let count = count_read(&input[..n]);
    let end = 1 + count;
    let start = end.min(n);
    report_text(&input[start..n], &input[1..end], text)
}

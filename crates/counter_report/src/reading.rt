// The input: a count byte, that many state bytes, then the sheet.
ghost use Rattle.std.specs.Prelude.{◌<◌, ◌≡◌, IfOk, OnErr, length, take};
ghost use Rattle.streams.specs.Counts.{IsPrefixLen};
ghost use Rattle.counter_report.specs.Input.{input_count, rest_needed, input_length};
ghost use Rattle.counter_report.specs.Buffers.{NoFurther};

use report::MOST_QUERIES;
use sheet::LONGEST;
use std::io::{Read, Result};

// Behind the states one byte more than the longest sheet, so that a longer one is seen to be too long and is not read to its end.
const SHEET_BYTES: usize = LONGEST + 1;

// The most that is needed: the count byte, and what may follow the largest count.
pub(crate) const INPUT_LENGTH: usize = 1 + (MOST_QUERIES + SHEET_BYTES);

// The count byte of what was read of a file, 0 where there is none.
pub(crate) fn count_read(read: &[u8]) -> usize
    ensures value { result ≡ input_count read.now }
    ensures upper_bound { result < 256 }
{
    match read.first() {
        Some(&count) => usize::from(count),
        None => 0,
    }
}

// Reads what may follow a count byte. How many bytes that is, is asked of the caller. The only error is that of a read that fails.
fn read_rest<R: Read>(reader: &mut R, count: usize, rest: &mut [u8]) -> Result<usize>
    requires { length rest.old ≡ rest_needed count }
    ensures prefix_len { IfOk result (λ n. IsPrefixLen n rest.new) }
    ensures failed { OnErr result (length rest.new ≡ length rest.old) }
{
    streams::read_full(reader, rest)
}

// Reads the count byte and, where it does not say too many queries, what is needed of the rest; answers how many bytes there were,
// or the error of a read that fails.
pub(crate) fn read_input<R: Read>(reader: &mut R, input: &mut [u8]) -> Result<usize>
    requires { length input.old ≡ input_length }
    ensures prefix_len { IfOk result (λ n. IsPrefixLen n input.new) }
    ensures no_further { IfOk result (λ n. NoFurther n input.new) }
    ensures failed { OnErr result (length input.new ≡ length input.old) }
{
    let first = streams::read_full(reader, &mut input[0..1])?;
    if first == 0 {
        return Ok(0);
    }
    let count = count_read(&input[..first]);
    if MOST_QUERIES < count {
        return Ok(first);
    }
    let end = 1 + (count + SHEET_BYTES);
    let rest = read_rest(reader, count, &mut input[1..end])?;
    Ok(1 + rest)
}

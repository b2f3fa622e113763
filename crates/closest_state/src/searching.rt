// From the bytes that were read to the text.
ghost use Rattle.std.specs.Prelude.{◌≤◌, ◌≡◌, length};
ghost use Rattle.streams.specs.Counts.{IsPrefixLen};
ghost use Rattle.text.specs.Placing.{Puts};
ghost use Rattle.closest_state.specs.Buffers.{input_length, PutsTextOfFile};
ghost use Rattle.closest_state.specs.Program.{program_of, program_text};
ghost use Rattle.closest_state.specs.ProgramCorrect.{fails_after};
ghost use Rattle.closest_state.specs.Text.{text_length};

use crate::lines::{FIRST_LENGTH, LINE_LENGTH, put_fails, put_holds, put_way};
use closest::finding::find_closest;
use closest::tracing::shortest_way;
use closest::{Closest, Failing};
use graph::MOST_STATES;
use judge::clearing::clear;
use judge::{LARGEST_TABLE, QueryError};
use sheet::{LONGEST, Numbered};

// One byte more than the longest sheet, so that a longer input is seen to be too long and is not read to its end.
pub(crate) const INPUT_LENGTH: usize = LONGEST + 1;

// Room for every text: no shortest way has more transitions than the plan has states.
pub(crate) const TEXT_LENGTH: usize = FIRST_LENGTH + MOST_STATES * LINE_LENGTH;

// Room for every shortest way, three bytes a transition.
const WAY_LENGTH: usize = 3 * MOST_STATES;

// Clears a table and looks for the closest state that breaks the rule; a refusal of either is the answer.
fn search(sheet: &[u8]) -> Result<Closest, QueryError>
    ensures { result ≡ program_of sheet.now }
{
    let mut table = [0u8; LARGEST_TABLE];
    clear(sheet, &mut table)?;
    find_closest(sheet, &mut table)
}

// The text where a state breaks the rule: it and the way to it, which is not refused, since the state is one of the plan's and the way has room.
fn put_found(sheet: &[u8], found: Failing, visits: usize, out: &mut [u8]) -> usize
    requires { (fails_after found.state found.steps visits ≡ program_of sheet.now) × (text_length ≤ length out.old) }
    ensures { Puts (program_text sheet.now) result out.old out.new }
{
    let mut way = [0u8; WAY_LENGTH];
    let _ = shortest_way(sheet, found.state, &mut way);
    let end = put_fails(found, visits, out);
    put_way(&way, found.steps as usize, end, out)
}

// Puts the text of a sheet at the start of out, and answers its length.
fn put_text(sheet: &[u8], out: &mut [u8]) -> usize
    requires { text_length ≤ length out.old }
    ensures prefix_len { IsPrefixLen result out.new }
    ensures puts { Puts (program_text sheet.now) result out.old out.new }
{
    match search(sheet) {
        Ok(closest) => match closest.first {
            Some(found) => put_found(sheet, found, closest.visits, out),
            None => put_holds(closest.visits, out),
        },
        Err(e) => text::put_refusal(e.number(), e.place(), 0, out),
    }
}

// Puts the text of a file of which n bytes were read into input: all of them, or as many as input holds. The buffer and n, and not the slice of n bytes:
// that the buffer is long enough for every sheet is asked of it.
pub(crate) fn search_input(input: &[u8], n: usize, out: &mut [u8]) -> usize
    requires input_len { length input.now ≡ input_length }
    requires prefix_len { IsPrefixLen n input.now }
    requires text_length_in_bounds { text_length ≤ length out.old }
    ensures result_len { IsPrefixLen result out.new }
    ensures puts_text_of_file { PutsTextOfFile input.now n result out.old out.new }
{
    put_text(&input[..n], out)
}

// The public call: refusals 1 to 10, 42 and 43, else the search among the beginnings, the shorter before the longer and the first recording's before
// the second's.
ghost use Rattle.std.specs.Prelude.{◌≡◌, take};
ghost use Rattle.sheet.specs.Reading.{sheet_check};
ghost use Rattle.recordings.specs.Runs.{WellFormedRun};
ghost use Rattle.recordings.specs.Shortest.{actions_below, answer_found, shortest_of, part_for, taken_from, HandsBack};

use crate::chains::{CHAIN_ROOM, MOST_ACTIONS, Recording, put_chain};
use crate::{Failing, RecordingError, Shortest};
use sheet::plan::action_count;
use sheet::reader::{check, plan_body};

// Every action of the run is one of the sheet.
fn all_below(run: &[u8], actions: u8) -> bool
    ensures { result ≡ actions_below actions run.now }
{
    run.iter().all(|&action| action < actions)
}

// What fails first of two recordings of one sheet.
fn search(first: Recording<'_>, second: Recording<'_>) -> Option<Failing>
    requires { second.sheet.now ≡ first.sheet.now }
    ensures { Ok result ≡ answer_found first.entry.sheet.now first.entry.run.now second.entry.run.now }
{
    for n in 0..=MOST_ACTIONS {
        if first.fails_at(n) {
            return Some(Failing::First(n));
        }
        if second.fails_at(n) {
            return Some(Failing::Second(n));
        }
    }
    None
}

// The same of two recordings that are not refused.
fn search_recorded(sheet: &[u8], first: &[u8], second: &[u8]) -> Option<Failing>
    requires passed { sheet_check sheet.now ≡ Ok tt }
    requires first_kept { WellFormedRun sheet.now first.now }
    requires second_kept { WellFormedRun sheet.now second.now }
    ensures { Ok result ≡ answer_found sheet.now first.now second.now }
{
    let mut first_room = [0u8; CHAIN_ROOM];
    let mut second_room = [0u8; CHAIN_ROOM];
    let n = put_chain(first, &mut first_room);
    let m = put_chain(second, &mut second_room);
    search(
        Recording {
            sheet,
            run: first,
            chain: &first_room[..n],
        },
        Recording {
            sheet,
            run: second,
            chain: &second_room[..m],
        },
    )
}

// The answer for any bytes.
#[tactic(auto, using(crate::proofs::Steps::Searching::run_kept), unfolding(crate::specs::Shortest::shortest_of))]
fn find(sheet: &[u8], first: &[u8], second: &[u8]) -> Result<Option<Failing>, RecordingError>
    ensures { result ≡ shortest_of sheet.now first.now second.now }
{
    check(sheet)?;
    if MOST_ACTIONS < first.len() || MOST_ACTIONS < second.len() {
        return Err(RecordingError::RunTooLong);
    }
    let actions = action_count(plan_body(sheet));
    if !all_below(first, actions) || !all_below(second, actions) {
        return Err(RecordingError::NoSuchAction);
    }
    Ok(search_recorded(sheet, first, second))
}

// The first n actions, or those that there are.
fn front(run: &[u8], n: usize) -> &[u8]
    ensures { (result.now ≡ take n run.now) × (result.ref_ptr ≡ run.entry.ref_ptr) }
{
    &run[..n.min(run.len())]
}

// The part that goes with an answer.
fn part_for<'a>(
    first: &'a [u8],
    second: &'a [u8],
    answer: Result<Option<Failing>, RecordingError>,
) -> &'a [u8]
    ensures { (result.now ≡ part_for first.now second.now answer) × (result.ref_ptr ≡ taken_from first.entry.ref_ptr second.entry.ref_ptr answer) }
{
    match answer {
        Ok(Some(Failing::First(n))) => front(first, n),
        Ok(Some(Failing::Second(n))) => front(second, n),
        Ok(None) => front(first, 0),
        Err(_) => front(first, 0),
    }
}

// The shortest beginning, of either recording, on which the rule of the sheet fails; between equal lengths the first recording's.
pub fn shortest_failing<'a>(sheet: &[u8], first: &'a [u8], second: &'a [u8]) -> Shortest<'a>
    ensures { HandsBack sheet.now first.now second.now result.answer result.part.now × (result.part.ref_ptr ≡ taken_from first.entry.ref_ptr second.entry.ref_ptr result.answer) }
{
    let answer = find(sheet, first, second);
    Shortest {
        answer,
        part: part_for(first, second, answer),
    }
}

// The plan: its check and its fields.
ghost use Rattle.std.specs.Prelude.{◌≡◌, true, ◌+◌, ◌*◌, ◌<◌, ◌≤◌, length};
ghost use Rattle.sheet.specs.Plan.{state_count, action_count, transition_count, plan_sized, transition_faulty, lowest_transition};
ghost use Rattle.sheet.specs.Fields.{transition_at};
ghost use Rattle.sheet.specs.Internal.Order.{key, faulty_elsewhere, step_at, Stepping};
ghost use Rattle.sheet.specs.Reading.{plan_check};
ghost use Rattle.sheet.specs.Refusals.{reported_check};

use crate::decode::{byte_at, byte_in, field_at, narrow_at, word_at};
use crate::{Action, Refusal, State, Transition};

// The plan's length, S and T are within their limits.
fn sized(p: &[u8]) -> bool
    ensures { result ≡ plan_sized p.now }
{
    let states = byte_at(p, 0);
    let count = word_at(p, 2);
    4 <= p.len() && 1 <= states && states <= 128 && count <= 2048 && p.len() == 4 + 3 * count
}

// A transition as one number: a greater one comes later by (from, action, to).
fn key_of(f: usize, a: usize, t: usize) -> usize
    requires { (f < 256) × (a < 256) × (t < 256) }
    ensures { result ≡ key f a t }
{
    (f * 256 + a) * 256 + t
}

// The least key that the next transition may have, or none where transition i is faulty in anything but its origin.
fn rise(p: &[u8], states: usize, actions: usize, floor: usize, i: usize) -> Option<usize>
    requires { Stepping p.now states actions floor i }
    ensures { result ≡ step_at faulty_elsewhere p.now i }
{
    let a = byte_in(p, 5 + 3 * i);
    if actions <= a {
        return None;
    }
    let t = byte_in(p, 6 + 3 * i);
    if states <= t {
        return None;
    }
    let key = key_of(byte_in(p, 4 + 3 * i), a, t);
    if key < floor {
        return None;
    }
    Some(key + 1)
}

// The same, or none where transition i is faulty.
fn step(p: &[u8], states: usize, actions: usize, floor: usize, i: usize) -> Option<usize>
    requires { Stepping p.now states actions floor i }
    ensures { result ≡ step_at transition_faulty p.now i }
{
    let next = rise(p, states, actions, floor, i)?;
    if key_of(states, 0, 0) < next {
        return None;
    }
    Some(next)
}

// The lowest faulty transition, or the number of transitions; the plan has a byte for each field of them.
fn lowest_faulty(p: &[u8]) -> usize
    requires { 4 + 3 * transition_count p.now ≤ length p.now }
    ensures { (result ≡ lowest_transition p.now) × (result < 65536) }
{
    let states = byte_at(p, 0);
    let actions = byte_at(p, 1);
    let count = word_at(p, 2);
    let mut floor = 0;
    for i in 0..count {
        let Some(next) = step(p, states, actions, floor, i) else {
            return i;
        };
        floor = next;
    }
    count
}

// True only where no transition is faulty: the cheap way for a plan that is right, two transitions a turn. Origins rise with the keys, so
// that the last is the only one to compare with S.
fn none_faulty(p: &[u8]) -> bool
    requires { 4 + 3 * transition_count p.now ≤ length p.now }
    ensures { result ≡ true → lowest_transition p.now ≡ transition_count p.now }
{
    let states = byte_at(p, 0);
    let actions = byte_at(p, 1);
    let count = word_at(p, 2);
    let mut floor = 0;
    for i in 0..count / 2 {
        let Some(middle) = rise(p, states, actions, floor, 2 * i) else {
            return false;
        };
        let Some(next) = rise(p, states, actions, middle, 2 * i + 1) else {
            return false;
        };
        floor = next;
    }
    if count % 2 == 1 {
        let Some(last) = rise(p, states, actions, floor, count - 1) else {
            return false;
        };
        floor = last;
    }
    floor <= key_of(states, 0, 0)
}

// Refusals 4 and 5.
pub fn check_plan(plan: &[u8]) -> Result<(), Refusal>
    ensures value { result ≡ plan_check plan.now }
    ensures result_value { reported_check result ≡ reported_check (plan_check plan.now) }
{
    if !sized(plan) {
        return Err(Refusal::PlanSize);
    }
    if none_faulty(plan) {
        return Ok(());
    }
    let i = lowest_faulty(plan);
    if i == word_at(plan, 2) {
        Ok(())
    } else {
        Err(Refusal::TransitionFault(i as u16))
    }
}

// S, the number of states.
pub fn state_count(plan: &[u8]) -> u8
    ensures { result ≡ state_count plan.now }
{
    narrow_at(plan, 0)
}

// A, the number of actions.
pub fn action_count(plan: &[u8]) -> u8
    ensures { result ≡ action_count plan.now }
{
    narrow_at(plan, 1)
}

// T, the number of transitions.
pub fn transition_count(plan: &[u8]) -> u16
    ensures { result ≡ transition_count plan.now }
{
    word_at(plan, 2) as u16
}

// Transition i: from, action, to.
pub fn transition(plan: &[u8], i: u16) -> Transition
    ensures { result ≡ transition_at plan.now i }
{
    let at = usize::from(i);
    Transition {
        from: State(field_at(plan, 4, at)),
        action: Action(field_at(plan, 5, at)),
        to: State(field_at(plan, 6, at)),
    }
}

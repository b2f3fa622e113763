// The closest state that breaks the rule: a sheet is read from standard input, and the state, or that the rule holds, is written as text with a shortest
// way to the state.
#![tactic(auto)]

mod lines;
mod searching;

use searching::{INPUT_LENGTH, TEXT_LENGTH};
use std::io::{Print, Result};

fn main(rt: HostRuntime) -> Result<()> {
    let mut input = [0u8; INPUT_LENGTH];
    let mut text = [0u8; TEXT_LENGTH];
    let n = streams::read_full(&mut rt.stdin(), &mut input)?;
    let k = searching::search_input(&input, n, &mut text);
    rt.write_all(&text[..k])
}

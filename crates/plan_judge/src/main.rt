// The plan judge: a sheet from standard input is judged at state 0, and the verdict is written as one line.
#![tactic(auto)]

mod judging;
mod line;

use judging::INPUT_LENGTH;
use line::LINE_LENGTH;
use std::io::{Print, Result};

fn main(rt: HostRuntime) -> Result<()> {
    let mut input = [0u8; INPUT_LENGTH];
    let mut text = [0u8; LINE_LENGTH];
    let n = streams::read_full(&mut rt.stdin(), &mut input)?;
    let k = judging::judge_input(&input, n, &mut text);
    rt.write_all(&text[..k])
}

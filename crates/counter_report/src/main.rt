// The counter report: the queries that standard input lists are run on its sheet, and the report of them is written as text.
#![tactic(auto)]

mod answer;
mod reading;

use reading::INPUT_LENGTH;
use report::LEAST_OUTPUT;
use std::io::{Print, Result};

fn main(rt: HostRuntime) -> Result<()> {
    let mut input = [0u8; INPUT_LENGTH];
    let mut text = [0u8; LEAST_OUTPUT];
    let n = reading::read_input(&mut rt.stdin(), &mut input)?;
    let k = answer::report_input(&input, n, &mut text);
    rt.write_all(&text[..k])
}

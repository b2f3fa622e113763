// Table 1 over sheets: which action formulas an action meets, and the guard check.
#![tactic(auto)]

pub mod guardedness;
pub mod meeting;

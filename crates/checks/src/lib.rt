// The entry checks of the calls: what is wrong with an input, if anything, by refusal number.
#![tactic(auto)]

mod tries;
pub mod verdicts;

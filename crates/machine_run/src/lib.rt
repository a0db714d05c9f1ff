// The PDP-8, step by step: one step, and a run of steps to a budget.
#![tactic(auto)]

pub mod run;
pub mod step;

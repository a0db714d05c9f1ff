// Op 7: the operate instructions.
#![tactic(auto)]

mod accumulator;
pub mod groups;
mod rotate;
mod skip;

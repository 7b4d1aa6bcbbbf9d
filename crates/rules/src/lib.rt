// The rules of following: which event may come next in a trace, by its tablet and its clock. Nothing is written here.
#![tactic(auto)]

pub mod clocks;
pub mod follow;

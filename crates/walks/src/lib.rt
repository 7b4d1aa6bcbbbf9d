// Walking a range cut by cut: counting its cuts, finding the first that meets a question, writing them to a lent output.
// Each walk knows of the engine the range's first cut and the step alone.
#![tactic(auto)]

pub mod counting;
pub mod finding;
pub mod showing;

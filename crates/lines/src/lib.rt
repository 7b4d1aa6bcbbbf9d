// The smallest parts of the trace text: decimal numbers, lists of them, and lines with their keys. Nothing here knows a trace.
#![tactic(auto)]

pub mod find;
pub mod lists;
pub mod numbers;

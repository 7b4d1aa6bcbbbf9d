// The ranges of a stored trace and the lexical step: where an interval begins and ends, and from one of its cuts to the next.
// Nothing here tests a store; the crates above have done so.
#![tactic(auto)]

pub mod inside;
pub mod lex;
pub mod spans;
pub mod walk;

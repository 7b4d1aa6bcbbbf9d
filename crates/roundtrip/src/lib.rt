// The way back, both ways: theorems and a table of cases on reading and writing. No code: no edit of the code that is tried in
// another crate has these proved again.
#![tactic(auto)]

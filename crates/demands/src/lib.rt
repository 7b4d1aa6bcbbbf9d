// What the calls on cuts give together: demands 2 and 3 as theorems about their outcomes. No code: no edit that is tried in
// another crate has these proved again.
#![tactic(auto)]

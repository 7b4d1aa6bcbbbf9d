// Worked examples of whole reports: a table of definitions and one proved fact over it. No code: no edit of the code that is
// tried in another crate has the table computed again.
#![tactic(auto)]

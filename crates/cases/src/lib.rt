// Cases (a) to (m) of document 01: one list, and one statement that all of it holds of the rules.
// All of it stands in specs/; this crate has no functions.
#![tactic(auto)]

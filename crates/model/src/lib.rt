// What is right, before any code: the types as data, their limits and the numbered refusals.
// All of it stands in specs/; this crate has no functions.
#![tactic(auto)]

// The record bytes of document 01: the readers and writers that the code is held to, and the round trips.
// All of it stands in specs/; this crate has no functions.
#![tactic(auto)]

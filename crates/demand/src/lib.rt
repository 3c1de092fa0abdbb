// Demand 3, both halves, as theorems about what the sheet call answers.
// The definitions stand in specs/, what is shown of them in proofs/; this crate has no functions.
#![tactic(auto)]

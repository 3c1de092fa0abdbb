// Demand 1, "one of" sixteen "numbered refusals": every public call, and the numbers that it can be refused with.
// All of it stands in specs/; this crate has no functions.
#![tactic(auto)]

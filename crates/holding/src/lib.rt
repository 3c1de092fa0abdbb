// The first half of demand 3 on lists of steps: whatever real arrays fit the puts and get through, each type left holds the shape of the
// real array there. The definitions stand in specs/, what is shown of them in proofs/; this crate has no functions.
#![tactic(auto)]

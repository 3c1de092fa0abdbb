// Which step of a sheet a place belongs to, and that it is the step that was refused.
// The definitions stand in specs/, what is shown of them in proofs/; this crate has no functions.
#![tactic(auto)]

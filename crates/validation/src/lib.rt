// The validation of document 01, `validate`, `check_scalar` and `check_shape` of mod.rs, and the laws about it.
// The definitions stand in specs/, what is shown of them in proofs/; this crate has no functions.
#![tactic(auto)]

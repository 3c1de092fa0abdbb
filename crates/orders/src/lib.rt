// The second half of demand 3 on lists of puts and unfilled pervadings: a mismatch exactly where no real arrays get through, and the same
// verdict and shape in every other order or grouping. All of it stands in specs/; this crate has no functions.
#![tactic(auto)]

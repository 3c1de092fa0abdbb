// The sheet of document 01, with the names of document 02: its steps as they are written and as they are worked, their bytes, the run on a
// stack of types, the whole call, well-formedness and the real run, with the laws of their reading. The definitions stand in specs/, what is shown of them in proofs/; this crate has no functions.
#![tactic(auto)]

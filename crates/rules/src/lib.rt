// The rules of document 01 for sizes, shapes, scalars, types and pervading; of document 02, the pervading of sheets (2026-01) and the table of
// kinds (2026-02); and the laws about them.
// The definitions stand in specs/, what is shown of them in proofs/; this crate has no functions.
#![tactic(auto)]

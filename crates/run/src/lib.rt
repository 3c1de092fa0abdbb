// The sheet check: steps on a stack of types, one call for a sheet of any bytes.
#![tactic(auto)]

mod sheet;

pub use sheet::{check_sheet, measure_sheet};

// What a sheet leaves: so many types, and their bytes in all.
#[derive(Clone, Copy, Debug, PartialEq, Eq)]
pub struct Left {
    pub types: usize,
    pub bytes: usize,
}

// How far a sheet has come: the place reached, how many types and names there are, and how many steps were taken.
#[derive(Clone, Copy)]
pub struct Reached {
    pub at: usize,
    pub count: usize,
    pub named: usize,
    pub taken: usize,
}

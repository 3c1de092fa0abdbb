// Values handed in (val.rs): a number, a list of numbers or a type. The list and the type's bytes are lent beside the value,
// and what is lent for another case is not looked at.
#![tactic(auto)]

mod counts;
mod parts;
mod rows;
mod sizes;
mod write;

pub use counts::{rank, row_count};
pub use parts::{nums_scalar, scalar, spec, ty};
pub use rows::{into_first_row, into_last_row, into_row};
pub use sizes::{as_dim, as_dims};

// A number; the list lent beside it; the type whose bytes are lent beside it.
#[derive(Clone, Copy)]
pub enum Value {
    Num(f64),
    List,
    Of,
}

// A row: a number, or a type, of which so many bytes were written to the result.
#[derive(Clone, Copy)]
pub enum Row {
    Number(f64),
    Wrote(usize),
}

// Which row: the one that stands for every row, the first or the last.
#[derive(Clone, Copy)]
enum RowKind {
    Every,
    First,
    Last,
}

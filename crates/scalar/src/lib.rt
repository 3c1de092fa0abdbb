// Scalars (scalar.rs): rules on records in lent bytes, by the table of kinds where it decides and else by box contents, which are walked
// with a falling depth; and the public calls on whole types.
#![tactic(auto)]

mod boxes;
mod refinement;
mod tests;
mod unions;
mod whole;

use limits::Kind;
pub use refinement::unrefine;
pub use tests::{compatible_scalars, compatible_with_boxes, superset};
pub use unions::{union, unite, unite_boxes};
pub use whole::kind_of;

// Where an All box's content begins, or the kind of any other scalar.
#[derive(Clone, Copy)]
pub enum Inner {
    Content(usize),
    Kind(Kind),
}

// What the union of two scalars is: a kind; the record from a place on in the first, or in the second; or a box Any.
#[derive(Clone, Copy)]
pub enum United {
    Kind(Kind),
    First(usize),
    Second(usize),
    BoxAny,
}

// Which of two boxes their union is; neither, where it is a box Any.
#[derive(Clone, Copy)]
pub enum Chosen {
    First,
    Second,
    Neither,
}

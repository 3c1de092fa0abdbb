// Sizes, lists of sizes and shapes by value (the Rust's shape.rs), and their pervading.
#![tactic(auto)]

mod dims;
mod pervade;
mod shapes;
mod sizes;

pub use dims::{join_dims, merge_dims, rest_dims};
pub use pervade::{pervade_closed, pervade_dyn_shapes};
pub use shapes::{
    compatible_with, into_row, is_any, is_scalar, is_yes, join, merge_from, rank, row_count,
};
pub use sizes::{cmp, cmp_defined, compatible, join_sizes, larger, row_compatible};

// What `compatible_with` says: yes; no, with the greatest index that fails; or no with none, since the counts differ.
#[derive(Clone, Copy)]
pub enum Compatibility {
    Yes,
    FailsAt(usize),
    CountsDiffer,
}

// Which pervading is asked for: that of the separate call, which is the Rust's, or that of sheets, where a filled size may grow
// (document 02, 2026-01).
#[derive(Clone, Copy)]
pub enum Pervading {
    Separate,
    InSheets,
}

// What the walk over two lists goes by: which sides are filled, which shapes are open, and whether any size may grow.
#[derive(Clone, Copy)]
struct Filling {
    a_fill: bool,
    b_fill: bool,
    a_open: bool,
    b_open: bool,
    grows: bool,
}

// The public calls on sizes and shapes. Sizes are numbers handed in, all ones for unknown; a shape is that of a whole type, of
// which nothing else is looked at. Of two inputs the first is read whole before the other.
#![tactic(auto)]

mod bytes;
mod numbers;
mod pervading;

pub use bytes::{
    compatible_shapes, count_rows, join_shapes, merge, row_shape, shape_is_any, shape_is_scalar,
    shape_rank,
};
pub use numbers::{
    dim_cmp, dim_cmp_defined, dim_compatible, dim_join, dim_max, dim_row_compatible,
};
pub use pervading::pervade;

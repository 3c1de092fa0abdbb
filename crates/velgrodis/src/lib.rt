// The library for desks written in other languages: every public call of the checker, over slices and numbers, with an answer as a
// struct of numbers. Nothing is decided here. `velgrodis_c` exports each by C's calling convention.
#![tactic(auto)]

mod answers;
mod lists;
mod scalars;
mod shapes;
mod sheet;
mod sizes;
mod types;
mod validating;
mod values;
mod version;

pub use scalars::{
    vg_compare, vg_compatible_scalars, vg_compatible_with_boxes, vg_kinds, vg_superset, vg_union,
    vg_unrefine,
};
pub use shapes::{
    vg_compatible_shapes, vg_join_shapes, vg_merge, vg_pervade, vg_rank, vg_row_count,
    vg_row_shape, vg_shape_is_any, vg_shape_is_scalar,
};
pub use sheet::{vg_check_sheet, vg_find_step};
pub use sizes::{
    vg_dim_cmp, vg_dim_cmp_defined, vg_dim_compatible, vg_dim_join, vg_dim_max,
    vg_dim_row_compatible,
};
pub use types::{
    vg_as_boxes, vg_field, vg_first_row, vg_join, vg_last_row, vg_nth_row, vg_read, vg_row,
    vg_scalar_record, vg_shape_record, vg_type_length, vg_unboxed,
};
pub use validating::{vg_check_scalar, vg_check_shape, vg_validate};
pub use values::{
    vg_as_dim, vg_as_dims, vg_nums_scalar, vg_val_first_row, vg_val_last_row, vg_val_rank,
    vg_val_row, vg_val_row_count, vg_val_scalar, vg_val_spec, vg_val_ty,
};
pub use version::vg_version;

// The kinds of an answer.
pub const REFUSED: u64 = 0;

pub const VALUE: u64 = 1;

pub const NOTHING: u64 = 2;

// Where an answer would have an index: none. The bits of an unknown size, but no size.
pub const NO_INDEX: u64 = u64::MAX;

// The marks of `limits`, each as one number for a host: the first byte times 256, and the second. NO_MARK is none.
pub const PUT: u64 = 0x5055;

pub const ROW: u64 = 0x5257;

pub const PERVADE: u64 = 0x5056;

pub const JOIN: u64 = 0x4A4E;

pub const VALIDATE: u64 = 0x5641;

pub const DECLARATION: u64 = 0x4E4D;

pub const USE: u64 = 0x5553;

pub const NO_MARK: u64 = 0;

// The input that a validation was reading.
pub const NEITHER: u64 = 0;

pub const SPEC: u64 = 1;

pub const CHECKED_TYPE: u64 = 2;

// What a call answers: refused, with number and place; a value, in `first` and `second`; or none. A number that its kind
// does not have is 0.
#[repr(C)]
#[derive(Clone, Copy)]
pub struct Answer {
    pub kind: u64,
    pub number: u64,
    pub place: u64,
    pub first: u64,
    pub second: u64,
}

// What a validation answers: the same, and which input was being read when it was refused; neither, if it was not.
#[repr(C)]
#[derive(Clone, Copy)]
pub struct Validation {
    pub answer: Answer,
    pub reading: u64,
}

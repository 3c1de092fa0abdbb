// The checker as a static library for desks in other languages, by the C calling convention: each export is the function of its name in
// `velgrodis`, and promises what that one does. Nothing is decided here. The archive that C is handed is called libvelgrodis.a.
#![tactic(auto)]

mod scalars;
mod shapes;
mod sheet;
mod sizes;
mod types;
mod validating;
mod values;
mod version;

pub use scalars::{
    vg_compare, vg_compatible_scalars, vg_compatible_with_boxes, vg_kinds, vg_superset, vg_union,
    vg_unrefine,
};
pub use shapes::{
    vg_compatible_shapes, vg_join_shapes, vg_merge, vg_pervade, vg_rank, vg_row_count,
    vg_row_shape, vg_shape_is_any, vg_shape_is_scalar,
};
pub use sheet::{vg_check_sheet, vg_find_step};
pub use sizes::{
    vg_dim_cmp, vg_dim_cmp_defined, vg_dim_compatible, vg_dim_join, vg_dim_max,
    vg_dim_row_compatible,
};
pub use types::{
    vg_as_boxes, vg_field, vg_first_row, vg_join, vg_last_row, vg_nth_row, vg_read, vg_row,
    vg_scalar_record, vg_shape_record, vg_type_length, vg_unboxed,
};
pub use validating::{vg_check_scalar, vg_check_shape, vg_validate};
pub use values::{
    vg_as_dim, vg_as_dims, vg_nums_scalar, vg_val_first_row, vg_val_last_row, vg_val_rank,
    vg_val_row, vg_val_row_count, vg_val_scalar, vg_val_spec, vg_val_ty,
};
pub use version::vg_version;

// Types as bytes: field n of a Def, `unboxed`, the rows and `as_boxes`. Each call reads its type whole, and what it answers
// is made of stretches of those bytes.
#![tactic(auto)]

mod content;
mod copies;
mod fields;
mod listing;
mod parts;
mod rows;
mod whole;

pub use content::unboxed;
pub use fields::field;
pub use listing::as_boxes;
pub use parts::Part;
pub use rows::{
    Which, into_first_row, into_last_row, into_nth_row, into_row, row_known, write_parts,
};

// Names of tables. A name, with the type that it was declared with, stays where it stands in the sheet; which ones are in force is kept in
// two lent slices: of each name, by first declaration, where its length stands and where its type ends.
#![tactic(auto)]

mod reading;
mod same;
mod table;

pub use reading::read_table_name;
pub use table::{Declared, declare, look_up};

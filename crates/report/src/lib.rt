// What a sheet check answered, as text.
#![tactic(auto)]

mod lines;
mod parts;

pub use lines::{put_left, put_refusal};
pub use parts::{put, put_number};

// Bytes that suffice for a number of 64 bits in decimal; for a word of three characters and two numbers with a space between them;
// and for what a type's line has beside its bytes and what stands between two lines.
pub const NUMBER_ROOM: usize = 20;

pub const HEAD_ROOM: usize = 3 + NUMBER_ROOM + 1 + NUMBER_ROOM;

pub const LINE_ROOM: usize = NUMBER_ROOM + 1;

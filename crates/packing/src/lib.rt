// A type as it lies in the scratch, without marks and with seven bytes a size, and back again. Its types are taken one after the other as
// they stand, each with its contents behind it: how many are still to come is all that is kept in mind.
#![tactic(auto)]

mod packed;
mod unpacked;

pub use packed::pack;
pub use unpacked::unpack;

// The place reached in what is read and in what is written.
#[derive(Clone, Copy)]
pub struct Places {
    pub from: usize,
    pub to: usize,
}

// The same past a scalar's head, and how many types it has for contents.
#[derive(Clone, Copy)]
pub struct Head {
    pub from: usize,
    pub to: usize,
    pub contents: u64,
}

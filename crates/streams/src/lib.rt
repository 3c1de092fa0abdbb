// The standard streams of a program, and its first argument. What a read or a write answered is kept, so that a program can tell a
// failed one from the end, and a part from all.
#![tactic(auto)]

mod arguments;
mod reading;
mod told;
mod writing;

pub use arguments::{read_argument, say_version};
pub use reading::{read_some, read_to_end};
pub use writing::{complain, write_out};

// What one read or write answered: so many bytes; none, which of a read says that the input has ended; or that it failed.
#[derive(Clone, Copy)]
pub enum Answered {
    Bytes(usize),
    Nothing,
    Failed,
}

// How many bytes were moved in all, and what the last read or write answered.
#[derive(Clone, Copy)]
pub struct Moved {
    pub count: usize,
    pub last: Answered,
}

// What a program is asked for by its first argument: without one, its work.
#[derive(Clone, Copy)]
pub enum Asked {
    Work,
    Help,
    Version,
    Unknown,
}

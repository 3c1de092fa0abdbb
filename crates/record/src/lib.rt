// Reading records from any bytes. Each function reads what one definition of `format` reads, in its order, and answers
// what was read with the place after it, or the refusal.
#![tactic(auto)]

mod bytes;
mod shapes;
mod types;
mod whole;

ghost use Rattle.std.specs.Prelude.{◌≡◌};
ghost use Rattle.record.specs.Answers.{Misreads};

pub use bytes::{list_count, number_at, read_name};
use limits::MAX_SIZES;
use limits::refusal::Refusal;
use std::convert::From;
pub use types::read_type;
pub use whole::{read_front, read_lone, read_two};

// A list of at most eight sizes: the first `count` of the array.
#[derive(Clone, Copy)]
pub struct Dims {
    pub sizes: [u64; MAX_SIZES],
    pub count: usize,
}

pub fn no_dims() -> Dims
    ensures { result.count ≡ 0 }
{
    Dims {
        sizes: [0u64; MAX_SIZES],
        count: 0,
    }
}

// A shape: its opening sizes, and its closing sizes unless it is closed.
#[derive(Clone, Copy)]
pub struct DynShape {
    pub dims: Dims,
    pub suffix: Dims,
    pub closed: bool,
}

// Which of two lone types is refused.
#[derive(Clone, Copy, Debug, PartialEq, Eq)]
pub enum Misread {
    First(Refusal),
    Second(Refusal),
}

// For a call that need not say which.
impl From<Misread> for Refusal {
    ghost from_gives = { Misreads };

    fn from(read: Misread) -> Refusal {
        match read {
            Misread::First(refusal) => refusal,
            Misread::Second(refusal) => refusal,
        }
    }
}

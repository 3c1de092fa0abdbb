// Validation (mod.rs): `validate`, `check_scalar` and `check_shape`. Old bytes in, new bytes out, or a refusal and nothing
// changed; a refusal tells which input was being read, or neither.
#![tactic(auto)]

mod calls;
mod copies;
mod descent;
mod dims;
mod heads;
mod lists;
mod plain;
mod plans;
mod shapes;

ghost use Rattle.validate.specs.Refuses.{MisreadAs, NotReading};

pub use calls::{check_scalar, check_shape, validate, validate_known};
use limits::refusal::Refusal;
pub use plain::validate_plain;
use record::Misread;
use std::convert::From;

// The side that a validation is for, or none.
#[derive(Clone, Copy, Debug, PartialEq, Eq)]
pub enum Side {
    Unsided,
    Left,
    Right,
}

// The input that was being read, or neither.
#[derive(Clone, Copy, Debug, PartialEq, Eq)]
pub enum Input {
    Spec,
    CheckedType,
    Neither,
}

// The refusal of a validation, and the input that was being read.
#[derive(Clone, Copy, Debug, PartialEq, Eq)]
pub struct Unvalidated {
    pub refusal: Refusal,
    pub reading: Input,
}

// Of the two inputs the spec is the first.
impl From<Misread> for Unvalidated {
    ghost from_gives = { MisreadAs };

    fn from(read: Misread) -> Unvalidated {
        match read {
            Misread::First(refusal) => Unvalidated {
                refusal,
                reading: Input::Spec,
            },
            Misread::Second(refusal) => Unvalidated {
                refusal,
                reading: Input::CheckedType,
            },
        }
    }
}

// What a rule refuses when neither is being read any more.
impl From<Refusal> for Unvalidated {
    ghost from_gives = { NotReading };

    fn from(refusal: Refusal) -> Unvalidated {
        Unvalidated {
            refusal,
            reading: Input::Neither,
        }
    }
}

// A list of types: where it stands, how many they are, and whether they stand one after the other or all at that place.
#[derive(Clone, Copy)]
struct Items {
    pub at: usize,
    pub count: u64,
    pub moves: bool,
}

// What a spec's scalar makes of a type's: the type's scalar as it is; the spec's; the contents of two All boxes, at
// their places; or a Def whose fields are those of two lists, pair by pair as far as both go.
#[derive(Clone, Copy)]
enum Plan {
    Keep,
    Take,
    Inside {
        content: usize,
        other: usize,
    },
    // The spec's list, and the type's, which stands in the type's bytes or is made of [..] Any. The Def's name, in the spec's
    // bytes or the type's.
    Pairs {
        wanted: Items,
        own: Items,
        fresh: bool,
        name: usize,
        borrowed: bool,
    },
}

// Where the bytes written end, and how many types they are.
#[derive(Clone, Copy)]
struct Extent {
    pub end: usize,
    pub types: u64,
}

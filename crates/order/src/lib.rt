// The order of two types: scalar first, then shape.
#![tactic(auto)]

mod kinds;
mod names;
mod shapes;
mod types;

pub use kinds::kind_place;
pub use types::{compare, compare_types};

// How two records compare; where they are the same, the place after the first.
#[derive(Clone, Copy)]
pub enum Ranking {
    Less,
    Same(usize),
    More,
}

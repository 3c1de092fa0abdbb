// One step of a sheet, on a stack of types and beside the names in force.
#![tactic(auto)]

mod steps;

pub use steps::work_step;

// The place that a rule reached, and how many types the stack then has.
#[derive(Clone, Copy)]
pub struct Worked {
    pub at: usize,
    pub count: usize,
}

// The same of a step, and how many names are then in force.
#[derive(Clone, Copy)]
pub struct Stepped {
    pub at: usize,
    pub count: usize,
    pub named: usize,
}

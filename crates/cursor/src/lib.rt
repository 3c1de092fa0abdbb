// A cursor over a sheet's bytes, and the steps that are read through it. A step's cursor is made at the place reached, and taken apart for
// a function on slice and place, whose answer is handed on with the place after the step.
#![tactic(auto)]

mod flags;
mod marks;
mod steps;
mod types;

ghost use Rattle.std.specs.Prelude.{◌≡◌};
ghost use Rattle.machine.specs.Sheet.{step_from};
ghost use Rattle.cursor.specs.Answers.{StepIs};

pub use flags::{Fills, read_flag};
use limits::refusal::Refusal;
pub use marks::{Operation, read_mark};
use steps::read_step;

// A step's fields and the place after it. The bytes of its type stand from start to next; a name's length stands at the
// place of the name, and the type that it is declared with behind it, up to next.
#[derive(Clone, Copy)]
pub enum Step {
    Put {
        start: usize,
        next: usize,
    },
    Row {
        next: usize,
    },
    Pervading {
        top_fill: bool,
        below_fill: bool,
        next: usize,
    },
    Join {
        next: usize,
    },
    Validating {
        start: usize,
        next: usize,
    },
    Declaring {
        name: usize,
        next: usize,
    },
    Using {
        name: usize,
        next: usize,
    },
}

// The sheet's bytes and the place reached.
#[derive(Clone, Copy)]
struct Cursor<'a> {
    src: &'a [u8],
    at: usize,
}

// The step whose mark stands at a place, on a stack of that height; its callers need no cursor of their own.
pub fn step_at(s: &[u8], at: usize, height: usize) -> Result<Step, Refusal>
    ensures { StepIs result s.now (step_from s.now height at at) }
{
    next_step(new(s, at), height)
}

fn new<'a>(src: &'a [u8], at: usize) -> Cursor<'a>
    ensures { (result.src ≡ src.entry) × (result.at ≡ at) }
{
    Cursor { src, at }
}

fn next_step<'a>(c: Cursor<'a>, height: usize) -> Result<Step, Refusal>
    ensures { StepIs result c.entry.src.now (step_from c.entry.src.now height c.entry.at c.entry.at) }
{
    read_step(c.src, c.at, height)
}

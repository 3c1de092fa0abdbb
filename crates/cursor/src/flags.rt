// The flag byte of a pervading.
ghost use Rattle.std.specs.Prelude.{◌≡◌};
ghost use Rattle.machine.specs.Steps.{a_pervading};
ghost use Rattle.machine.specs.Sheet.{argument_from};
ghost use Rattle.cursor.specs.Answers.{fills_of};

use limits::MAX_FLAG;
use limits::refusal::{Reason, Refusal};

// Which of both types is filled, and the place after the flag.
#[derive(Clone, Copy)]
pub struct Fills {
    pub top: bool,
    pub below: bool,
    pub next: usize,
}

// A refusal names the step's mark.
#[tactic(auto, unfolding(machine::specs::Sheet::argument_from, format::specs::Reader::judged, format::specs::Reader::byte))]
pub fn read_flag(s: &[u8], mark: usize, at: usize) -> Result<Fills, Refusal>
    ensures { fills_of result ≡ argument_from s.now a_pervading mark at }
{
    if s.len() <= at {
        return Err(Refusal(Reason::Ended, mark));
    }
    let flag = s[at];
    if MAX_FLAG < flag {
        return Err(Refusal(Reason::OutOfRange, mark));
    }
    Ok(Fills {
        top: flag % 2 == 1,
        below: flag / 2 % 2 == 1,
        next: at + 1,
    })
}

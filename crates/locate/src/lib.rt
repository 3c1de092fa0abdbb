// Which step of a sheet a place belongs to, so that a refusal can be said in words. Steps are told by their bytes alone.
#![tactic(auto)]

mod ends;

ghost use Rattle.std.specs.Prelude.{◌≡◌};
ghost use Rattle.places.specs.Places.{told_step, mark_at, step_of};
ghost use Rattle.cursor.specs.Answers.{opcode_of};
ghost use Rattle.locate.specs.Answers.{located_of};

use cursor::{Operation, read_mark};
use ends::step_end;

// A step by its number, counted from 1, and what its mark says, if it is one.
#[derive(Clone, Copy)]
pub struct Located {
    pub number: u64,
    pub operation: Option<Operation>,
}

// The step that a place belongs to, if it belongs to one.
#[tactic(auto, using(crate::proofs::LocateLaws::from_the_first, crate::proofs::LocateLaws::past_all, crate::proofs::LocateLaws::step_goes, crate::proofs::LocateLaws::no_more, crate::proofs::LocateLaws::in_this, crate::proofs::LocateLaws::in_a_later))]
pub fn find_step(s: &[u8], place: u64) -> Option<Located>
    ensures { located_of result ≡ step_of s.now place }
{
    let mut before = 0;
    let mut at = 0;
    while at < s.len() {
        let Some(next) = step_end(s, at) else {
            // All bytes that are left are the step's, and the place after them.
            if (s.len() as u64) < place {
                return None;
            }
            return Some(name_step(s, at, before + 1));
        };
        if place < next as u64 {
            return Some(name_step(s, at, before + 1));
        }
        before += 1;
        at = next;
    }
    None
}

// The step that begins at a place, by its number and its mark.
fn name_step(s: &[u8], at: usize, number: u64) -> Located
    ensures { told_step result.number (opcode_of result.operation) ≡ told_step number (mark_at s.now at) }
{
    let operation = match read_mark(s, at) {
        Ok((operation, _)) => Some(operation),
        Err(_) => None,
    };
    Located { number, operation }
}

// Lone types: whether bytes are one, and of two inputs which is refused.
ghost use Rattle.std.specs.Prelude.{◌≡◌, ◌-◌};
ghost use Rattle.model.specs.Limits.{max_types};
ghost use Rattle.model.specs.Types.{types};
ghost use Rattle.format.specs.Reader.{map_read};
ghost use Rattle.format.specs.Records.{read_type};
ghost use Rattle.format.specs.Outcome.{mapped, refusal_of, lone};
ghost use Rattle.record.specs.Answers.{reading_of, lone_of, two_of, nothing};

use crate::Misread;
use crate::types::read_type;
use limits::refusal::{Reason, Refusal};
use limits::{MAX_DEPTH, MAX_TYPES};

// A lone type: nothing may stand after it.
#[tactic(auto, unfolding(format::specs::Outcome::lone))]
pub fn read_lone(s: &[u8]) -> Result<(), Refusal>
    ensures { lone_of result ≡ mapped nothing (lone s.now) }
{
    let (_, end) = read_front(s)?;
    if end < s.len() {
        return Err(Refusal(Reason::Trailing, end));
    }
    Ok(())
}

// The type that begins the bytes, whatever follows it: the place after it is its length.
pub fn read_front(s: &[u8]) -> Result<(u64, usize), Refusal>
    ensures { reading_of result ≡ map_read (λ t. max_types - types t) (read_type s.now 0) }
{
    read_type(s, 0, MAX_DEPTH, MAX_TYPES)
}

// Two lone types, of which the first is read whole before the other: which of them is refused.
pub fn read_two(a: &[u8], b: &[u8]) -> Result<(), Misread>
    ensures { two_of result ≡ refusal_of (lone a.now) (lone b.now) }
{
    read_lone(a).map_err(Misread::First)?;
    read_lone(b).map_err(Misread::Second)
}

// A type inside a sheet.
ghost use Rattle.format.specs.Records.{read_type};
ghost use Rattle.cursor.specs.Answers.{TypeIs};

use limits::refusal::Refusal;
use limits::{MAX_DEPTH, MAX_TYPES};
use record::read_type;

// The place after a type, whose bytes stand before it.
#[tactic(auto, using(crate::proofs::ReadLaws::spanned))]
pub fn read_stretch(s: &[u8], at: usize) -> Result<usize, Refusal>
    ensures { TypeIs result s.now at (read_type s.now at) }
{
    let (_, next) = read_type(s, at, MAX_DEPTH, MAX_TYPES)?;
    Ok(next)
}

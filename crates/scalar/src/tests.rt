// Tests of the scalars of two whole types.
ghost use Rattle.std.specs.Prelude.{◌≡◌};
ghost use Rattle.limits.specs.Answers.{told};
ghost use Rattle.rules.specs.Scalars.{superset_of, compatible_scalars, compatible_with_boxes};
ghost use Rattle.known.specs.Whole.{of_scalars};

use crate::boxes::compatible_boxes;
use crate::whole::{kind_of, start_of};
use limits::MAX_DEPTH;
use limits::refusal::Refusal;
use record::read_two;

// `superset_of`: whether the first's scalar is a superset of the second's.
#[tactic(auto, unfolding(rules::specs::Scalars::superset_of))]
pub fn superset(a: &[u8], b: &[u8]) -> Result<bool, Refusal>
    ensures { told result ≡ of_scalars superset_of a.now b.now }
{
    read_two(a, b)?;
    Ok(kind_table::superset(kind_of(a), kind_of(b)))
}

// `compatible_with` of two scalars.
#[tactic(auto, unfolding(rules::specs::Scalars::compatible_scalars))]
pub fn compatible_scalars(a: &[u8], b: &[u8]) -> Result<bool, Refusal>
    ensures { told result ≡ of_scalars compatible_scalars a.now b.now }
{
    read_two(a, b)?;
    Ok(kind_table::compatible(kind_of(a), kind_of(b)))
}

// `compatible_with_boxes`, which looks into All boxes.
#[tactic(auto, using(crate::proofs::WholeLaws::scalar_stands))]
pub fn compatible_with_boxes(a: &[u8], b: &[u8]) -> Result<bool, Refusal>
    ensures { told result ≡ of_scalars compatible_with_boxes a.now b.now }
{
    read_two(a, b)?;
    Ok(compatible_boxes(a, start_of(a), b, start_of(b), MAX_DEPTH - 1))
}

// How many rows a value has, and its rank.
ghost use Rattle.std.specs.Prelude.{◌≡◌};
ghost use Rattle.model.specs.Types.{shape_of};
ghost use Rattle.format.specs.Records.{dim_of};
ghost use Rattle.format.specs.Outcome.{mapped, bound, lone};
ghost use Rattle.record.specs.Answers.{shape_for};
ghost use Rattle.limits.specs.Answers.{told};
ghost use Rattle.val.specs.Answers.{value_of};
ghost use Rattle.val.specs.Values.{length_dim, value_row_count, value_rank};

use crate::Value;
use known::shape_at;
use limits::MAX_SIZE;
use limits::refusal::{Reason, Refusal};
use record::{DynShape, read_lone};

#[tactic(auto, unfolding(crate::specs::Values::value_row_count))]
pub fn row_count(v: Value, list: &[f64], bytes: &[u8]) -> Result<u64, Refusal>
    ensures { mapped dim_of (told result) ≡ bound value_row_count (value_of v list.now bytes.now) }
{
    match v {
        Value::Num(_) => Ok(1),
        Value::List => row_count_of_list(list),
        Value::Of => Ok(shape::row_count(type_shape(bytes)?)),
    }
}

#[tactic(auto, unfolding(crate::specs::Values::length_dim))]
pub fn row_count_of_list(list: &[f64]) -> Result<u64, Refusal>
    ensures { mapped dim_of (told result) ≡ length_dim list.now }
{
    let n = list.len() as u64;
    if MAX_SIZE < n {
        return Err(Refusal(Reason::Oversized, 0));
    }
    Ok(n)
}

#[tactic(auto, unfolding(crate::specs::Values::value_rank))]
pub fn rank(v: Value, list: &[f64], bytes: &[u8]) -> Result<u64, Refusal>
    ensures { told result ≡ mapped value_rank (value_of v list.now bytes.now) }
{
    match v {
        Value::Num(_) => Ok(0),
        Value::List => Ok(1),
        Value::Of => Ok(shape::rank(type_shape(bytes)?) as u64),
    }
}

// The shape of a type. A part of each call, so that it goes from the bytes to the count and is not copied.
#[inline(always)]
#[tactic(auto, using(crate::proofs::CountLaws::shaped))]
fn type_shape(ty: &[u8]) -> Result<DynShape, Refusal>
    ensures { mapped shape_for (told result) ≡ mapped shape_of (lone ty.now) }
{
    read_lone(ty)?;
    Ok(shape_at(ty, 0))
}

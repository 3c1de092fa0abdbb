// Shapes of types handed in as bytes: the calls of shape.rs.
ghost use Rattle.std.specs.Prelude.{◌≡◌};
ghost use Rattle.format.specs.Records.{dim_of};
ghost use Rattle.format.specs.Outcome.{mapped, deliver};
ghost use Rattle.limits.specs.Answers.{told};
ghost use Rattle.lent.specs.Written.{delivered};
ghost use Rattle.shape.specs.Answers.{compatibility_of};
ghost use Rattle.shape_calls.specs.Calls.{merge_call, join_shapes_call, row_call, compatible_shapes_call, is_any_call, is_scalar_call, row_count_call, rank_call};

use known::{any_shape_at, shape_at};
use limits::refusal::Refusal;
use record::{read_lone, read_two};
use shape::{
    Compatibility, compatible_with, into_row, is_scalar, join, merge_from, rank, row_count,
};
use writer::write_shape;

// The first merges from the second.
#[tactic(auto, using(lent::specs::Delivers::deliver_refusal, crate::proofs::CallLaws::two_known))]
pub fn merge(a: &[u8], b: &[u8], res: &mut [u8]) -> Result<usize, Refusal>
    ensures { delivered result res.new ≡ deliver (merge_call a.now b.now) res.old }
{
    read_two(a, b)?;
    write_shape(merge_from(shape_at(a, 0), shape_at(b, 0)), &mut *res)
}

#[tactic(auto, using(lent::specs::Delivers::deliver_refusal, crate::proofs::CallLaws::two_known))]
pub fn join_shapes(a: &[u8], b: &[u8], res: &mut [u8]) -> Result<usize, Refusal>
    ensures { delivered result res.new ≡ deliver (join_shapes_call a.now b.now) res.old }
{
    read_two(a, b)?;
    write_shape(join(shape_at(a, 0), shape_at(b, 0)), &mut *res)
}

#[tactic(auto, using(lent::specs::Delivers::deliver_refusal, crate::proofs::CallLaws::one_known))]
pub fn row_shape(a: &[u8], res: &mut [u8]) -> Result<usize, Refusal>
    ensures { delivered result res.new ≡ deliver (row_call a.now) res.old }
{
    read_lone(a)?;
    write_shape(into_row(shape_at(a, 0)), &mut *res)
}

// Whether the opening sizes are compatible; with a no, the greatest index that fails, or none where the counts differ.
#[tactic(auto, using(crate::proofs::CallLaws::two_known))]
pub fn compatible_shapes(a: &[u8], b: &[u8]) -> Result<Compatibility, Refusal>
    ensures { mapped compatibility_of (told result) ≡ compatible_shapes_call a.now b.now }
{
    read_two(a, b)?;
    Ok(compatible_with(shape_at(a, 0), shape_at(b, 0)))
}

#[tactic(auto, using(crate::proofs::CallLaws::one_known))]
pub fn shape_is_any(a: &[u8]) -> Result<bool, Refusal>
    ensures { told result ≡ is_any_call a.now }
{
    read_lone(a)?;
    Ok(any_shape_at(a, 0))
}

#[tactic(auto, using(crate::proofs::CallLaws::one_known))]
pub fn shape_is_scalar(a: &[u8]) -> Result<bool, Refusal>
    ensures { told result ≡ is_scalar_call a.now }
{
    read_lone(a)?;
    Ok(is_scalar(shape_at(a, 0)))
}

#[tactic(auto, using(crate::proofs::CallLaws::one_known))]
pub fn count_rows(a: &[u8]) -> Result<u64, Refusal>
    ensures { mapped dim_of (told result) ≡ row_count_call a.now }
{
    read_lone(a)?;
    Ok(row_count(shape_at(a, 0)))
}

#[tactic(auto, using(crate::proofs::CallLaws::one_known))]
pub fn shape_rank(a: &[u8]) -> Result<u64, Refusal>
    ensures { told result ≡ rank_call a.now }
{
    read_lone(a)?;
    Ok(rank(shape_at(a, 0)) as u64)
}

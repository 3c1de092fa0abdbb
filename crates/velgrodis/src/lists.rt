// A list of sizes, handed over in numbers.
ghost use Rattle.std.specs.Prelude.{map, ◌≡◌};
ghost use Rattle.format.specs.Records.{dim_number};
ghost use Rattle.format.specs.Outcome.{accepted, deliver};
ghost use Rattle.record.specs.Answers.{dims_of};
ghost use Rattle.lent.specs.Written.{delivered};
ghost use Rattle.val.specs.Answers.{maybe_dims};
ghost use Rattle.velgrodis.specs.Answers.{handed, listed, deliver_sizes};

use crate::Answer;
use crate::answers::Crosses;
use limits::refusal::{Reason, Refusal};
use record::Dims;
use writer::size_count;

// None needs no room.
#[tactic(auto, unfolding(crate::specs::Answers::deliver_sizes))]
pub fn cross_dims(answer: Result<Option<Dims>, Refusal>, sizes: &mut [u64]) -> Answer
    ensures { handed result sizes.new ≡ listed (deliver_sizes (maybe_dims answer) sizes.old) }
{
    match answer {
        Ok(Some(dims)) => lay_sizes(dims, &mut *sizes).cross(),
        Ok(None) => None::<usize>.cross(),
        Err(refusal) => refusal.cross(),
    }
}

// Sizes, all ones for unknown, to the front of what is lent for them. Answers how many they are.
#[tactic(auto, using(crate::proofs::SizeLaws::sizes))]
fn lay_sizes(dims: Dims, sizes: &mut [u64]) -> Result<usize, Refusal>
    ensures { delivered result sizes.new ≡ deliver (accepted (map dim_number (dims_of dims))) sizes.old }
{
    let n = size_count(dims);
    if sizes.len() < n {
        return Err(Refusal(Reason::TooShort, 0));
    }
    sizes[..n].copy_from_slice(&dims.sizes[..n]);
    Ok(n)
}

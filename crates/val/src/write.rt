// How some answers of this crate are written: the list of one size, or a type's own bytes.
ghost use Rattle.std.specs.Prelude.{◌≡◌, [], ◌∷◌};
ghost use Rattle.format.specs.Records.{dim_of, write_ty};
ghost use Rattle.format.specs.Outcome.{deliver, mapped, lone};
ghost use Rattle.lent.specs.Written.{delivered};
ghost use Rattle.record.specs.Answers.{dims_of};

use lent::hand_over;
use limits::MAX_SIZES;
use limits::refusal::Refusal;
use record::{Dims, read_lone};

// A type as it was handed in.
#[tactic(auto, using(crate::proofs::WriteLaws::same_written, lent::specs::Delivers::deliver_refusal))]
pub fn write_same(ty: &[u8], res: &mut [u8]) -> Result<usize, Refusal>
    ensures { delivered result res.new ≡ deliver (mapped write_ty (lone ty.now)) res.old }
{
    read_lone(ty)?;
    hand_over(ty, &mut *res)
}

// The list of one size.
pub fn one_dim(size: u64) -> Dims
    ensures { dims_of result ≡ dim_of size ∷ [] }
{
    let mut sizes = [0u64; MAX_SIZES];
    sizes[0] = size;
    Dims { sizes, count: 1 }
}

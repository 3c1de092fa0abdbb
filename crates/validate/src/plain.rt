// Closed shapes and plain kinds, as most types have, validated without a side: opening sizes and kinds are all that there is to look at, so
// no closing list is made, and what the type then is goes to the result at once.
ghost use Rattle.std.proofs.Math.Option.{none};
ghost use Rattle.std.specs.Prelude.{◌≡◌};
ghost use Rattle.model.specs.Types as types;
ghost use Rattle.model.specs.Types.{plain, ty, shape};
ghost use Rattle.format.specs.Records.{code, write_ty};
ghost use Rattle.format.specs.Outcome.{deliver, mapped};
ghost use Rattle.limits.specs.Codes.{code_for};
ghost use Rattle.lent.specs.Written.{delivered};
ghost use Rattle.record.specs.Answers.{dims_of};
ghost use Rattle.validation.specs.CheckShape.{unsided};
ghost use Rattle.validation.specs.Validate.{validate};

use crate::shapes::mismatch_closed;
use kind_table::superset;
use limits::Kind;
use limits::refusal::{Reason, Refusal};
use record::Dims;
use shape::merge_dims;
use writer::write_closed;

// The opening sizes and the kind that a spec asks for, and those of a type.
#[tactic(auto, using(crate::proofs::PlainLaws::plain_uncovered, crate::proofs::PlainLaws::plain_clash, crate::proofs::PlainLaws::plain_clear))]
pub fn validate_plain(
    wanted: Dims,
    over: Kind,
    dims: Dims,
    kind: Kind,
    res: &mut [u8],
) -> Result<usize, Refusal>
    ensures { (k l : types.Kind) → code_for over ≡ code k → code_for kind ≡ code l
        → delivered result res.new ≡ deliver (mapped write_ty (validate unsided (ty (shape (dims_of wanted) none) (plain k)) (ty (shape (dims_of dims) none) (plain l)))) res.old }
{
    if !superset(over, kind) {
        return Err(Refusal(Reason::WrongScalar, 0));
    }
    match mismatch_closed(wanted, dims) {
        Ok(()) => write_closed(merge_dims(dims, wanted), kind.code(), &mut *res),
        Err(reason) => Err(Refusal(reason, 0)),
    }
}

// Bytes that are known to be a type.
ghost use Rattle.std.specs.Prelude.{◌≡◌};
ghost use Rattle.model.specs.Types.{shape_of};
ghost use Rattle.format.specs.Outcome.{accepted, mapped, lone};
ghost use Rattle.record.specs.Answers.{nothing, shape_for};
ghost use Rattle.ty.specs.Parts.{Inside};

use known::{View, look, scalar_at, shape_at};
use record::DynShape;

// Its shape.
#[tactic(auto, using(crate::proofs::PartLaws::shaped))]
pub fn whole_shape(ty: &[u8]) -> DynShape
    requires { mapped nothing (lone ty.now) ≡ accepted 0 }
    ensures { mapped shape_of (lone ty.now) ≡ accepted (shape_for result) }
{
    shape_at(ty, 0)
}

// What its scalar is, and where what that holds stands.
#[tactic(auto, using(crate::proofs::PartLaws::type_known, crate::proofs::PartLaws::scalar_known))]
pub fn whole_scalar(ty: &[u8]) -> View
    requires { mapped nothing (lone ty.now) ≡ accepted 0 }
    ensures { Inside ty.now result }
{
    look(ty, scalar_at(ty, 0))
}

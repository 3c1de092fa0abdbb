// Types that are known to be whole: where their scalars begin, and of what kind they are.
ghost use Rattle.std.specs.Prelude.{◌≡◌};
ghost use Rattle.model.specs.Types.{scalar_of};
ghost use Rattle.format.specs.Outcome.{accepted, mapped, lone};
ghost use Rattle.limits.specs.Codes.{code_for};
ghost use Rattle.record.specs.Answers.{nothing};
ghost use Rattle.rules.specs.Order.{code_of};
ghost use Rattle.scalar.specs.Whole.{WholeScalar};

use known::{kind_at, scalar_at};
use limits::Kind;

// Where its scalar begins.
#[tactic(auto, using(crate::proofs::WholeLaws::type_known, crate::proofs::WholeLaws::whole_scalar))]
pub fn start_of(ty: &[u8]) -> usize
    requires { mapped nothing (lone ty.now) ≡ accepted 0 }
    ensures { WholeScalar ty.now result }
{
    scalar_at(ty, 0)
}

// The kind of its scalar.
#[tactic(auto, using(crate::proofs::WholeLaws::scalar_stands))]
pub fn kind_of(ty: &[u8]) -> Kind
    requires { mapped nothing (lone ty.now) ≡ accepted 0 }
    ensures { mapped (λ t. code_of (scalar_of t)) (lone ty.now) ≡ accepted (code_for result) }
{
    kind_at(ty, start_of(ty))
}

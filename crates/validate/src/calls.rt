// The public calls: the spec is read whole first, then the type; a result that is too short is found last.
ghost use Rattle.std.specs.Prelude.{◌⊎◌, ◌≡◌};
ghost use Rattle.format.specs.Records.{write_ty};
ghost use Rattle.format.specs.Outcome.{accepted, deliver, mapped, both, lone};
ghost use Rattle.lent.specs.Written.{delivered, Puts, Short};
ghost use Rattle.record.specs.Answers.{nothings};
ghost use Rattle.validation.specs.Validate.{validate, check_scalar_only, check_shape_only};
ghost use Rattle.validation.specs.Separate.{separately};
ghost use Rattle.validate.specs.Answers.{side_of, separate_of};

use crate::descent::{check_scalar_at, check_type};
use crate::shapes::check_shapes;
use crate::{Side, Unvalidated};
use known::{scalar_at, shape_at};
use lent::hand_over;
use limits::MAX_BYTES;
use limits::refusal::{Reason, Refusal};
use record::read_two;
use ty::write_parts;
use writer::put_shape;

// `validate`: scalar first, then shape.
#[tactic(auto, using(crate::proofs::SeparateLaws::both_good, crate::proofs::SeparateLaws::tells_accepted, crate::proofs::SeparateLaws::tells_neither))]
pub fn validate(side: Side, spec: &[u8], ty: &[u8], res: &mut [u8]) -> Result<usize, Unvalidated>
    ensures { separate_of result res.new ≡ separately (validate (side_of side)) spec.now ty.now res.old }
{
    read_two(spec, ty)?;
    Ok(deliver_validated(side, spec, ty, &mut *res)?)
}

// `check_shape`: the type with the shape that it then has; its scalar stays as it is.
#[tactic(auto, using(crate::proofs::SeparateLaws::both_good, crate::proofs::SeparateLaws::tells_accepted, crate::proofs::SeparateLaws::tells_neither))]
pub fn check_shape(side: Side, spec: &[u8], ty: &[u8], res: &mut [u8]) -> Result<usize, Unvalidated>
    ensures { separate_of result res.new ≡ separately (check_shape_only (side_of side)) spec.now ty.now res.old }
{
    read_two(spec, ty)?;
    Ok(deliver_shape(side, spec, ty, &mut *res)?)
}

// `check_scalar`: the type with the scalar that it then has; its shape stays as it is, and the spec's is not looked at.
#[tactic(auto, using(crate::proofs::SeparateLaws::both_good, crate::proofs::SeparateLaws::tells_accepted, crate::proofs::SeparateLaws::tells_neither))]
pub fn check_scalar(spec: &[u8], ty: &[u8], res: &mut [u8]) -> Result<usize, Unvalidated>
    ensures { separate_of result res.new ≡ separately check_scalar_only spec.now ty.now res.old }
{
    read_two(spec, ty)?;
    Ok(deliver_scalar(spec, ty, &mut *res)?)
}

// `validate` of bytes that are known to be types. What the type then is goes to bytes of its own first, so that a refusal leaves the
// result as lent.
fn deliver_validated(side: Side, spec: &[u8], ty: &[u8], res: &mut [u8]) -> Result<usize, Refusal>
    requires { both nothings (lone spec.now) (lone ty.now) ≡ accepted 0 }
    ensures { delivered result res.new ≡ deliver (both (λ s t. mapped write_ty (validate (side_of side) s t)) (lone spec.now) (lone ty.now)) res.old }
{
    let mut out = [0u8; MAX_BYTES];
    let n = validate_known(side, spec, ty, &mut out)?;
    hand_over(&out[..n], &mut *res)
}

// The same to the front of a buffer. A refusal says nothing of the buffer, unless it is too short: one that does not hold any type may be.
pub fn validate_known(side: Side, spec: &[u8], ty: &[u8], out: &mut [u8]) -> Result<usize, Refusal>
    requires { both nothings (lone spec.now) (lone ty.now) ≡ accepted 0 }
    ensures { Puts result out.new (both (λ s t. mapped write_ty (validate (side_of side) s t)) (lone spec.now) (lone ty.now)) ⊎ Short result out.new }
{
    // How much it writes before it is done is not known here.
    if out.len() < MAX_BYTES {
        return Err(Refusal(Reason::TooShort, 0));
    }
    match check_type(side, spec, 0, ty, 0, 0, 0, &mut *out, 0) {
        Ok(written) => Ok(written.end),
        Err(reason) => Err(Refusal(reason, 0)),
    }
}

// `check_shape` of bytes that are known to be types.
fn deliver_shape(side: Side, spec: &[u8], ty: &[u8], res: &mut [u8]) -> Result<usize, Refusal>
    requires { both nothings (lone spec.now) (lone ty.now) ≡ accepted 0 }
    ensures { delivered result res.new ≡ deliver (both (λ s t. mapped write_ty (check_shape_only (side_of side) s t)) (lone spec.now) (lone ty.now)) res.old }
{
    match check_shapes(side, shape_at(spec, 0), shape_at(ty, 0)) {
        Ok(shape) => write_parts(shape, b"", &ty[scalar_at(ty, 0)..], &mut *res),
        Err(reason) => Err(Refusal(reason, 0)),
    }
}

// `check_scalar` of bytes that are known to be types.
fn deliver_scalar(spec: &[u8], ty: &[u8], res: &mut [u8]) -> Result<usize, Refusal>
    requires { both nothings (lone spec.now) (lone ty.now) ≡ accepted 0 }
    ensures { delivered result res.new ≡ deliver (both (λ s t. mapped write_ty (check_scalar_only s t)) (lone spec.now) (lone ty.now)) res.old }
{
    let mut out = [0u8; MAX_BYTES];
    let start = put_shape(&mut out, 0, shape_at(ty, 0));
    match check_scalar_at(spec, 0, ty, 0, 0, 0, &mut out, start) {
        Ok(written) => hand_over(&out[..written.end], &mut *res),
        Err(reason) => Err(Refusal(reason, 0)),
    }
}

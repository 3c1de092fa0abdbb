// Validation of a type against a spec.
ghost use Rattle.std.specs.Prelude.{◌≡◌};
ghost use Rattle.validation.specs.Validate.{validate, check_scalar_only, check_shape_only};
ghost use Rattle.validation.specs.Separate.{separately};
ghost use Rattle.velgrodis.specs.Answers.{validation_handed, validation_of};
ghost use Rattle.velgrodis.specs.Codes.{side_for, sided};
ghost use Rattle.velgrodis.specs.Chosen.{side_chosen};

use crate::Validation;
use crate::answers::{Crosses, cross_validation, reading_neither};
use limits::refusal::{Reason, Refusal};
use validate::Side;

// Side 0 is none, 1 left, 2 right.
pub fn vg_validate(side: u64, spec: &[u8], ty: &[u8], res: &mut [u8]) -> Validation
    ensures { validation_handed result res.new ≡ validation_of (sided validate side spec.now ty.now res.old) }
{
    let Some(side) = choose_side(side) else {
        return reading_neither(Refusal(Reason::OutOfRange, 0).cross());
    };
    cross_validation(validate::validate(side, spec, ty, &mut *res))
}

pub fn vg_check_shape(side: u64, spec: &[u8], ty: &[u8], res: &mut [u8]) -> Validation
    ensures { validation_handed result res.new ≡ validation_of (sided check_shape_only side spec.now ty.now res.old) }
{
    let Some(side) = choose_side(side) else {
        return reading_neither(Refusal(Reason::OutOfRange, 0).cross());
    };
    cross_validation(validate::check_shape(side, spec, ty, &mut *res))
}

pub fn vg_check_scalar(spec: &[u8], ty: &[u8], res: &mut [u8]) -> Validation
    ensures { validation_handed result res.new ≡ validation_of (separately check_scalar_only spec.now ty.now res.old) }
{
    cross_validation(validate::check_scalar(spec, ty, &mut *res))
}

// The side that a number stands for, if it stands for one.
fn choose_side(n: u64) -> Option<Side>
    ensures { side_chosen result ≡ side_for n }
{
    match n {
        0 => Some(Side::Unsided),
        1 => Some(Side::Left),
        2 => Some(Side::Right),
        _ => None,
    }
}

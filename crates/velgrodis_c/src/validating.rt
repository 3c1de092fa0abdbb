// Validation of a type against a spec.
ghost use Rattle.std.specs.Prelude.{◌≡◌};
ghost use Rattle.validation.specs.Validate.{validate, check_scalar_only, check_shape_only};
ghost use Rattle.validation.specs.Separate.{separately};
ghost use Rattle.velgrodis.specs.Answers.{validation_handed, validation_of};
ghost use Rattle.velgrodis.specs.Codes.{sided};

use velgrodis::Validation;

// Side 0 is none, 1 left, 2 right.
#[unsafe(no_mangle)]
pub extern "C" fn vg_validate(side: u64, spec: &[u8], ty: &[u8], res: &mut [u8]) -> Validation
    ensures { validation_handed result res.new ≡ validation_of (sided validate side spec.now ty.now res.old) }
{
    velgrodis::vg_validate(side, spec, ty, res)
}

#[unsafe(no_mangle)]
pub extern "C" fn vg_check_shape(side: u64, spec: &[u8], ty: &[u8], res: &mut [u8]) -> Validation
    ensures { validation_handed result res.new ≡ validation_of (sided check_shape_only side spec.now ty.now res.old) }
{
    velgrodis::vg_check_shape(side, spec, ty, res)
}

#[unsafe(no_mangle)]
pub extern "C" fn vg_check_scalar(spec: &[u8], ty: &[u8], res: &mut [u8]) -> Validation
    ensures { validation_handed result res.new ≡ validation_of (separately check_scalar_only spec.now ty.now res.old) }
{
    velgrodis::vg_check_scalar(spec, ty, res)
}

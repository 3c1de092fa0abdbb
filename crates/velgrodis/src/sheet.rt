// The sheet check, and the step that a place of a sheet belongs to.
ghost use Rattle.std.specs.Prelude.{◌≡◌};
ghost use Rattle.machine.specs.Call.{sheet_call};
ghost use Rattle.places.specs.Places.{step_of};
ghost use Rattle.velgrodis.specs.Answers.{returned, checked, located};

use crate::Answer;
use crate::answers::Crosses;

// How many types are left, and how many bytes they take in all. The bytes stand in the result, bottom first.
pub fn vg_check_sheet(sheet: &[u8], res: &mut [u8], scratch: &mut [u8]) -> Answer
    ensures { returned result res.new scratch.new ≡ checked (sheet_call sheet.now res.old scratch.old) }
{
    run::check_sheet(sheet, &mut *res, &mut *scratch).cross()
}

// The step's number, counted from 1, and its mark; or none, where the place belongs to no step.
pub fn vg_find_step(sheet: &[u8], place: u64) -> Answer
    ensures { result ≡ located (step_of sheet.now place) }
{
    locate::find_step(sheet, place).cross()
}

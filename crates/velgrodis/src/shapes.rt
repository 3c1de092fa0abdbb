// Calls on the shapes of types.
ghost use Rattle.std.specs.Prelude.{◌≡◌};
ghost use Rattle.format.specs.Outcome.{deliver};
ghost use Rattle.shape_calls.specs.Calls.{merge_call, join_shapes_call, row_call, compatible_shapes_call, is_any_call, is_scalar_call, row_count_call, rank_call};
ghost use Rattle.velgrodis.specs.Answers.{handed, written, counted, sized, tested, shapes_tested};
ghost use Rattle.velgrodis.specs.Codes.{pervade_flagged};

use crate::Answer;
use crate::answers::Crosses;
use limits::MAX_FLAG;
use limits::refusal::{Reason, Refusal};

// The first merges from the second.
pub fn vg_merge(a: &[u8], b: &[u8], res: &mut [u8]) -> Answer
    ensures { handed result res.new ≡ written (deliver (merge_call a.now b.now) res.old) }
{
    shape_calls::merge(a, b, &mut *res).cross()
}

pub fn vg_join_shapes(a: &[u8], b: &[u8], res: &mut [u8]) -> Answer
    ensures { handed result res.new ≡ written (deliver (join_shapes_call a.now b.now) res.old) }
{
    shape_calls::join_shapes(a, b, &mut *res).cross()
}

pub fn vg_row_shape(ty: &[u8], res: &mut [u8]) -> Answer
    ensures { handed result res.new ≡ written (deliver (row_call ty.now) res.old) }
{
    shape_calls::row_shape(ty, &mut *res).cross()
}

// Bit 0 of the flag fills the first, bit 1 the second.
#[tactic(auto, using(lent::specs::Delivers::deliver_refusal))]
pub fn vg_pervade(flag: u64, a: &[u8], b: &[u8], res: &mut [u8]) -> Answer
    ensures { handed result res.new ≡ written (deliver (pervade_flagged flag a.now b.now) res.old) }
{
    if (MAX_FLAG as u64) < flag {
        return Refusal(Reason::OutOfRange, 0).cross();
    }
    let first = flag % 2 == 1;
    let second = flag / 2 % 2 == 1;
    shape_calls::pervade(a, b, first, second, &mut *res).cross()
}

// With a no, `second` is the greatest index that fails, or NO_INDEX.
pub fn vg_compatible_shapes(a: &[u8], b: &[u8]) -> Answer
    ensures { result ≡ shapes_tested (compatible_shapes_call a.now b.now) }
{
    shape_calls::compatible_shapes(a, b).cross()
}

pub fn vg_shape_is_any(ty: &[u8]) -> Answer
    ensures { result ≡ tested (is_any_call ty.now) }
{
    shape_calls::shape_is_any(ty).cross()
}

pub fn vg_shape_is_scalar(ty: &[u8]) -> Answer
    ensures { result ≡ tested (is_scalar_call ty.now) }
{
    shape_calls::shape_is_scalar(ty).cross()
}

pub fn vg_row_count(ty: &[u8]) -> Answer
    ensures { result ≡ sized (row_count_call ty.now) }
{
    shape_calls::count_rows(ty).cross()
}

pub fn vg_rank(ty: &[u8]) -> Answer
    ensures { result ≡ counted (rank_call ty.now) }
{
    shape_calls::shape_rank(ty).cross()
}

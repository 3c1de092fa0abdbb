// Calls on the shapes of types.
ghost use Rattle.std.specs.Prelude.{◌≡◌};
ghost use Rattle.format.specs.Outcome.{deliver};
ghost use Rattle.shape_calls.specs.Calls.{merge_call, join_shapes_call, row_call, compatible_shapes_call, is_any_call, is_scalar_call, row_count_call, rank_call};
ghost use Rattle.velgrodis.specs.Answers.{handed, written, counted, sized, tested, shapes_tested};
ghost use Rattle.velgrodis.specs.Codes.{pervade_flagged};

use velgrodis::Answer;

// The first merges from the second.
#[unsafe(no_mangle)]
pub extern "C" fn vg_merge(a: &[u8], b: &[u8], res: &mut [u8]) -> Answer
    ensures { handed result res.new ≡ written (deliver (merge_call a.now b.now) res.old) }
{
    velgrodis::vg_merge(a, b, res)
}

#[unsafe(no_mangle)]
pub extern "C" fn vg_join_shapes(a: &[u8], b: &[u8], res: &mut [u8]) -> Answer
    ensures { handed result res.new ≡ written (deliver (join_shapes_call a.now b.now) res.old) }
{
    velgrodis::vg_join_shapes(a, b, res)
}

#[unsafe(no_mangle)]
pub extern "C" fn vg_row_shape(ty: &[u8], res: &mut [u8]) -> Answer
    ensures { handed result res.new ≡ written (deliver (row_call ty.now) res.old) }
{
    velgrodis::vg_row_shape(ty, res)
}

// Bit 0 of the flag fills the first, bit 1 the second.
#[unsafe(no_mangle)]
pub extern "C" fn vg_pervade(flag: u64, a: &[u8], b: &[u8], res: &mut [u8]) -> Answer
    ensures { handed result res.new ≡ written (deliver (pervade_flagged flag a.now b.now) res.old) }
{
    velgrodis::vg_pervade(flag, a, b, res)
}

// With a no, `second` is the greatest index that fails, or NO_INDEX.
#[unsafe(no_mangle)]
pub extern "C" fn vg_compatible_shapes(a: &[u8], b: &[u8]) -> Answer
    ensures { result ≡ shapes_tested (compatible_shapes_call a.now b.now) }
{
    velgrodis::vg_compatible_shapes(a, b)
}

#[unsafe(no_mangle)]
pub extern "C" fn vg_shape_is_any(ty: &[u8]) -> Answer
    ensures { result ≡ tested (is_any_call ty.now) }
{
    velgrodis::vg_shape_is_any(ty)
}

#[unsafe(no_mangle)]
pub extern "C" fn vg_shape_is_scalar(ty: &[u8]) -> Answer
    ensures { result ≡ tested (is_scalar_call ty.now) }
{
    velgrodis::vg_shape_is_scalar(ty)
}

#[unsafe(no_mangle)]
pub extern "C" fn vg_row_count(ty: &[u8]) -> Answer
    ensures { result ≡ sized (row_count_call ty.now) }
{
    velgrodis::vg_row_count(ty)
}

#[unsafe(no_mangle)]
pub extern "C" fn vg_rank(ty: &[u8]) -> Answer
    ensures { result ≡ counted (rank_call ty.now) }
{
    velgrodis::vg_rank(ty)
}

// Calls on types.
ghost use Rattle.std.specs.Prelude.{◌≡◌};
ghost use Rattle.format.specs.Records.{write_ty};
ghost use Rattle.format.specs.Outcome.{deliver, mapped, bound, lone, type_length, shape_record, scalar_record};
ghost use Rattle.record.specs.Answers.{nothing};
ghost use Rattle.rules.specs.Types.{field_place, as_boxes, unboxed, into_row, into_first_row, into_last_row, into_nth_row};
ghost use Rattle.ty.specs.Calls.{deliver_boxes};
ghost use Rattle.join.specs.Calls.{join_call};
ghost use Rattle.velgrodis.specs.Answers.{handed, counted, found, written, listed};

use velgrodis::Answer;

// Whether the bytes are a lone type: the value is 0 if they are.
#[unsafe(no_mangle)]
pub extern "C" fn vg_read(ty: &[u8]) -> Answer
    ensures { result ≡ counted (mapped nothing (lone ty.now)) }
{
    velgrodis::vg_read(ty)
}

// The length of the type that begins the bytes, whatever follows it.
#[unsafe(no_mangle)]
pub extern "C" fn vg_type_length(bytes: &[u8]) -> Answer
    ensures { result ≡ counted (type_length bytes.now) }
{
    velgrodis::vg_type_length(bytes)
}

#[unsafe(no_mangle)]
pub extern "C" fn vg_shape_record(ty: &[u8], res: &mut [u8]) -> Answer
    ensures { handed result res.new ≡ written (deliver (mapped shape_record (lone ty.now)) res.old) }
{
    velgrodis::vg_shape_record(ty, res)
}

#[unsafe(no_mangle)]
pub extern "C" fn vg_scalar_record(ty: &[u8], res: &mut [u8]) -> Answer
    ensures { handed result res.new ≡ written (deliver (mapped scalar_record (lone ty.now)) res.old) }
{
    velgrodis::vg_scalar_record(ty, res)
}

#[unsafe(no_mangle)]
pub extern "C" fn vg_row(ty: &[u8], res: &mut [u8]) -> Answer
    ensures { handed result res.new ≡ written (deliver (mapped (λ t. write_ty (into_row t)) (lone ty.now)) res.old) }
{
    velgrodis::vg_row(ty, res)
}

#[unsafe(no_mangle)]
pub extern "C" fn vg_first_row(ty: &[u8], res: &mut [u8]) -> Answer
    ensures { handed result res.new ≡ written (deliver (mapped (λ t. write_ty (into_first_row t)) (lone ty.now)) res.old) }
{
    velgrodis::vg_first_row(ty, res)
}

#[unsafe(no_mangle)]
pub extern "C" fn vg_last_row(ty: &[u8], res: &mut [u8]) -> Answer
    ensures { handed result res.new ≡ written (deliver (mapped (λ t. write_ty (into_last_row t)) (lone ty.now)) res.old) }
{
    velgrodis::vg_last_row(ty, res)
}

// Row n, counted from 0.
#[unsafe(no_mangle)]
pub extern "C" fn vg_nth_row(ty: &[u8], n: u64, res: &mut [u8]) -> Answer
    ensures { handed result res.new ≡ written (deliver (mapped (λ t. write_ty (into_nth_row n t)) (lone ty.now)) res.old) }
{
    velgrodis::vg_nth_row(ty, n, res)
}

#[unsafe(no_mangle)]
pub extern "C" fn vg_unboxed(ty: &[u8], res: &mut [u8]) -> Answer
    ensures { handed result res.new ≡ written (deliver (mapped (λ t. write_ty (unboxed t)) (lone ty.now)) res.old) }
{
    velgrodis::vg_unboxed(ty, res)
}

// Name, count and types in Def's layout, or none for what is no box.
#[unsafe(no_mangle)]
pub extern "C" fn vg_as_boxes(ty: &[u8], res: &mut [u8]) -> Answer
    ensures { handed result res.new ≡ listed (deliver_boxes (bound as_boxes (lone ty.now)) res.old) }
{
    velgrodis::vg_as_boxes(ty, res)
}

// Where field n stands, counted from 0, or none.
#[unsafe(no_mangle)]
pub extern "C" fn vg_field(ty: &[u8], n: u64) -> Answer
    ensures { result ≡ found (mapped (field_place n) (lone ty.now)) }
{
    velgrodis::vg_field(ty, n)
}

#[unsafe(no_mangle)]
pub extern "C" fn vg_join(a: &[u8], b: &[u8], res: &mut [u8]) -> Answer
    ensures { handed result res.new ≡ written (deliver (join_call a.now b.now) res.old) }
{
    velgrodis::vg_join(a, b, res)
}

// Calls on types.
ghost use Rattle.std.specs.Prelude.{◌≡◌};
ghost use Rattle.format.specs.Records.{write_ty};
ghost use Rattle.format.specs.Outcome.{deliver, mapped, bound, lone, type_length, shape_record, scalar_record};
ghost use Rattle.record.specs.Answers.{nothing};
ghost use Rattle.rules.specs.Types.{field_place, as_boxes, unboxed, into_row, into_first_row, into_last_row, into_nth_row};
ghost use Rattle.ty.specs.Calls.{deliver_boxes};
ghost use Rattle.join.specs.Calls.{join_call};
ghost use Rattle.velgrodis.specs.Answers.{handed, counted, found, written, listed};

use crate::Answer;
use crate::answers::Crosses;

// Whether the bytes are a lone type: the value is 0 if they are.
pub fn vg_read(ty: &[u8]) -> Answer
    ensures { result ≡ counted (mapped nothing (lone ty.now)) }
{
    record::read_lone(ty).cross()
}

// The length of the type that begins the bytes, whatever follows it.
#[tactic(auto, unfolding(format::specs::Outcome::type_length))]
pub fn vg_type_length(bytes: &[u8]) -> Answer
    ensures { result ≡ counted (type_length bytes.now) }
{
    match record::read_front(bytes) {
        Ok((_, end)) => end.cross(),
        Err(refusal) => refusal.cross(),
    }
}

pub fn vg_shape_record(ty: &[u8], res: &mut [u8]) -> Answer
    ensures { handed result res.new ≡ written (deliver (mapped shape_record (lone ty.now)) res.old) }
{
    writer::shape_record(ty, &mut *res).cross()
}

pub fn vg_scalar_record(ty: &[u8], res: &mut [u8]) -> Answer
    ensures { handed result res.new ≡ written (deliver (mapped scalar_record (lone ty.now)) res.old) }
{
    writer::scalar_record(ty, &mut *res).cross()
}

pub fn vg_row(ty: &[u8], res: &mut [u8]) -> Answer
    ensures { handed result res.new ≡ written (deliver (mapped (λ t. write_ty (into_row t)) (lone ty.now)) res.old) }
{
    ty::into_row(ty, &mut *res).cross()
}

pub fn vg_first_row(ty: &[u8], res: &mut [u8]) -> Answer
    ensures { handed result res.new ≡ written (deliver (mapped (λ t. write_ty (into_first_row t)) (lone ty.now)) res.old) }
{
    ty::into_first_row(ty, &mut *res).cross()
}

pub fn vg_last_row(ty: &[u8], res: &mut [u8]) -> Answer
    ensures { handed result res.new ≡ written (deliver (mapped (λ t. write_ty (into_last_row t)) (lone ty.now)) res.old) }
{
    ty::into_last_row(ty, &mut *res).cross()
}

// Row n, counted from 0.
pub fn vg_nth_row(ty: &[u8], n: u64, res: &mut [u8]) -> Answer
    ensures { handed result res.new ≡ written (deliver (mapped (λ t. write_ty (into_nth_row n t)) (lone ty.now)) res.old) }
{
    ty::into_nth_row(ty, n, &mut *res).cross()
}

pub fn vg_unboxed(ty: &[u8], res: &mut [u8]) -> Answer
    ensures { handed result res.new ≡ written (deliver (mapped (λ t. write_ty (unboxed t)) (lone ty.now)) res.old) }
{
    ty::unboxed(ty, &mut *res).cross()
}

// Name, count and types in Def's layout, or none for what is no box.
pub fn vg_as_boxes(ty: &[u8], res: &mut [u8]) -> Answer
    ensures { handed result res.new ≡ listed (deliver_boxes (bound as_boxes (lone ty.now)) res.old) }
{
    ty::as_boxes(ty, &mut *res).cross()
}

// Where field n stands, counted from 0, or none.
pub fn vg_field(ty: &[u8], n: u64) -> Answer
    ensures { result ≡ found (mapped (field_place n) (lone ty.now)) }
{
    ty::field(ty, n).cross()
}

pub fn vg_join(a: &[u8], b: &[u8], res: &mut [u8]) -> Answer
    ensures { handed result res.new ≡ written (deliver (join_call a.now b.now) res.old) }
{
    join::join(a, b, &mut *res).cross()
}

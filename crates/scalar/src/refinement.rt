// `unrefine`: Int, Nat and Bool become Num, Ascii becomes Char, in boxes too. No length changes, so the record is copied and its
// kinds are changed where they stand.
ghost use Rattle.std.specs.Prelude.{◌≡◌, ◌+◌, length};
ghost use Rattle.model.specs.Types as types;
ghost use Rattle.model.specs.Types.{Scalar, Ty};
ghost use Rattle.limits.specs.Codes.{code_for};
ghost use Rattle.format.specs.Records.{code, write_scalar, write_ty};
ghost use Rattle.format.specs.Outcome.{deliver};
ghost use Rattle.lent.specs.Over.{over};
ghost use Rattle.lent.specs.Written.{delivered};
ghost use Rattle.rules.specs.Scalars.{unrefine_kind, unrefine};
ghost use Rattle.known.specs.Known.{ScalarAt, TypeAt, HasScalar, HasType, HasFields};
ghost use Rattle.known.specs.Whole.{of_scalar};
ghost use Rattle.scalar.specs.Calls.{unrefine_ty, FieldsUnrefined};

use crate::whole::start_of;
use known::{View, look, put_kind, scalar_at};
use lent::hand_over;
use limits::refusal::Refusal;
use limits::{Kind, MAX_DEPTH};
use record::read_lone;

// The unrefined scalar's record, to the front of the result.
#[tactic(auto, using(record::proofs::LoneLaws::delivered_reading))]
pub fn unrefine(ty: &[u8], res: &mut [u8]) -> Result<usize, Refusal>
    ensures { delivered result res.new ≡ deliver (of_scalar (λ k. write_scalar (unrefine k)) ty.now) res.old }
{
    read_lone(ty)?;
    let n = hand_over(&ty[start_of(ty)..], &mut *res)?;
    unrefine_at(&mut *res, 0, MAX_DEPTH - 1);
    Ok(n)
}

// Each function below answers the place after what it unrefines.
#[cycle(unrefining)]
fn unrefine_at(out: &mut [u8], at: usize, depth: u64) -> usize
    requires { HasScalar out.old at depth }
    ensures { (k : Scalar) → ScalarAt out.old at depth k → (result ≡ at + length (write_scalar k)) × (out.new ≡ over out.old at (write_scalar (unrefine k))) }
{
    match look(&*out, at) {
        View::Plain { kind, end } => {
            put_kind(&mut *out, at, unrefine_kind(kind).code());
            end
        }
        View::BoxAny { end } => end,
        View::BoxAll { content } => unrefine_type(&mut *out, content, depth),
        View::BoxDef {
            name: _,
            named: _,
            fields,
            count,
        } => unrefine_fields(&mut *out, fields, count, depth),
    }
}

#[tactic(auto, unfolding(format::specs::Records::code, rules::specs::Scalars::unrefine_kind))]
fn unrefine_kind(kind: Kind) -> Kind
    ensures { (k : types.Kind) → code_for kind ≡ code k → code_for result ≡ code (unrefine_kind k) }
{
    match kind {
        Kind::Bool | Kind::Nat | Kind::Int => Kind::Num,
        Kind::Ascii => Kind::Char,
        other => other,
    }
}

#[cycle(unrefining)]
fn unrefine_type(out: &mut [u8], at: usize, depth: u64) -> usize
    requires { HasType out.old at depth }
    ensures { (t : Ty) → TypeAt out.old at depth t → (result ≡ at + length (write_ty t)) × (out.new ≡ over out.old at (write_ty (unrefine_ty t))) }
{
    let scalar = scalar_at(&*out, at);
    unrefine_at(&mut *out, scalar, depth - 1)
}

// So many fields from their first on.
#[cycle(unrefining)]
fn unrefine_fields(out: &mut [u8], start: usize, count: u64, depth: u64) -> usize
    requires { HasFields out.old start depth count }
    ensures { FieldsUnrefined out.old start count depth result out.new }
{
    let mut at = start;
    for _ in 0..count {
        at = unrefine_type(&mut *out, at, depth);
    }
    at
}

// Calls on values handed in. The number `kind` says which of those lent is the value: 0 the number x, 1 the list, 2 the type.
ghost use Rattle.std.specs.Prelude.{◌≡◌};
ghost use Rattle.format.specs.Records.{write_scalar, write_ty};
ghost use Rattle.format.specs.Outcome.{accepted, deliver, mapped, bound};
ghost use Rattle.val.specs.Values.{value_ty, value_spec, nums_scalar, value_scalar, value_row_count, value_rank, value_as_dim, value_as_dims, value_row, value_first_row, value_last_row, deliver_row};
ghost use Rattle.velgrodis.specs.Answers.{handed, written, listed, counted, sized, sized_or_none, row_handed, rowed, deliver_sizes};
ghost use Rattle.velgrodis.specs.Codes.{handed_in};
ghost use Rattle.velgrodis.specs.Chosen.{ValueFor};

use crate::Answer;
use crate::answers::{Crosses, cross_row};
use crate::lists::cross_dims;
use limits::refusal::{Reason, Refusal};
use val::Value;

#[tactic(auto, using(crate::proofs::CodeLaws::unsaid_laws))]
pub fn vg_val_ty(kind: u64, x: f64, list: &[f64], ty: &[u8], res: &mut [u8]) -> Answer
    ensures { handed result res.new ≡ written (deliver (mapped write_ty (bound value_ty (handed_in kind x list.now ty.now))) res.old) }
{
    let Some(v) = choose_value(kind, x) else {
        return Refusal(Reason::OutOfRange, 0).cross();
    };
    val::ty(v, list, ty, &mut *res).cross()
}

#[tactic(auto, using(crate::proofs::CodeLaws::unsaid_laws))]
pub fn vg_val_spec(kind: u64, x: f64, list: &[f64], ty: &[u8], res: &mut [u8]) -> Answer
    ensures { handed result res.new ≡ written (deliver (mapped write_ty (bound value_spec (handed_in kind x list.now ty.now))) res.old) }
{
    let Some(v) = choose_value(kind, x) else {
        return Refusal(Reason::OutOfRange, 0).cross();
    };
    val::spec(v, list, ty, &mut *res).cross()
}

#[tactic(auto, using(crate::proofs::CodeLaws::unsaid_laws))]
pub fn vg_val_scalar(kind: u64, x: f64, list: &[f64], ty: &[u8], res: &mut [u8]) -> Answer
    ensures { handed result res.new ≡ written (deliver (mapped write_scalar (mapped value_scalar (handed_in kind x list.now ty.now))) res.old) }
{
    let Some(v) = choose_value(kind, x) else {
        return Refusal(Reason::OutOfRange, 0).cross();
    };
    val::scalar(v, list, ty, &mut *res).cross()
}

pub fn vg_nums_scalar(list: &[f64], res: &mut [u8]) -> Answer
    ensures { handed result res.new ≡ written (deliver (accepted (write_scalar (nums_scalar list.now))) res.old) }
{
    val::nums_scalar(list, &mut *res).cross()
}

#[tactic(auto, using(crate::proofs::CodeLaws::past_three))]
pub fn vg_val_row_count(kind: u64, x: f64, list: &[f64], ty: &[u8]) -> Answer
    ensures { result ≡ sized (bound value_row_count (handed_in kind x list.now ty.now)) }
{
    let Some(v) = choose_value(kind, x) else {
        return Refusal(Reason::OutOfRange, 0).cross();
    };
    val::row_count(v, list, ty).cross()
}

#[tactic(auto, using(crate::proofs::CodeLaws::past_three))]
pub fn vg_val_rank(kind: u64, x: f64, list: &[f64], ty: &[u8]) -> Answer
    ensures { result ≡ counted (mapped value_rank (handed_in kind x list.now ty.now)) }
{
    let Some(v) = choose_value(kind, x) else {
        return Refusal(Reason::OutOfRange, 0).cross();
    };
    val::rank(v, list, ty).cross()
}

// A row that is a number goes to `number`, one that is a type to the result.
#[tactic(auto, using(crate::proofs::CodeLaws::unsaid_laws))]
pub fn vg_val_row(
    kind: u64,
    x: f64,
    list: &[f64],
    ty: &[u8],
    number: &mut f64,
    res: &mut [u8],
) -> Answer
    ensures { row_handed result number.new res.new ≡ rowed number.old (deliver_row (mapped value_row (handed_in kind x list.now ty.now)) res.old) }
{
    let Some(v) = choose_value(kind, x) else {
        return Refusal(Reason::OutOfRange, 0).cross();
    };
    cross_row(val::into_row(v, list, ty, &mut *res), &mut *number)
}

#[tactic(auto, using(crate::proofs::CodeLaws::unsaid_laws))]
pub fn vg_val_first_row(
    kind: u64,
    x: f64,
    list: &[f64],
    ty: &[u8],
    number: &mut f64,
    res: &mut [u8],
) -> Answer
    ensures { row_handed result number.new res.new ≡ rowed number.old (deliver_row (mapped value_first_row (handed_in kind x list.now ty.now)) res.old) }
{
    let Some(v) = choose_value(kind, x) else {
        return Refusal(Reason::OutOfRange, 0).cross();
    };
    cross_row(val::into_first_row(v, list, ty, &mut *res), &mut *number)
}

#[tactic(auto, using(crate::proofs::CodeLaws::unsaid_laws))]
pub fn vg_val_last_row(
    kind: u64,
    x: f64,
    list: &[f64],
    ty: &[u8],
    number: &mut f64,
    res: &mut [u8],
) -> Answer
    ensures { row_handed result number.new res.new ≡ rowed number.old (deliver_row (mapped value_last_row (handed_in kind x list.now ty.now)) res.old) }
{
    let Some(v) = choose_value(kind, x) else {
        return Refusal(Reason::OutOfRange, 0).cross();
    };
    cross_row(val::into_last_row(v, list, ty, &mut *res), &mut *number)
}

// The size that a number stands for, all ones for unknown; none for what is no number.
#[tactic(auto, using(crate::proofs::CodeLaws::past_three))]
pub fn vg_as_dim(kind: u64, x: f64, list: &[f64], ty: &[u8]) -> Answer
    ensures { result ≡ sized_or_none (bound value_as_dim (handed_in kind x list.now ty.now)) }
{
    let Some(v) = choose_value(kind, x) else {
        return Refusal(Reason::OutOfRange, 0).cross();
    };
    val::as_dim(v, list, ty).cross()
}

// The sizes that a list stands for go to `sizes`; none for what is no list.
#[tactic(auto, using(crate::proofs::CodeLaws::unsaid_laws))]
pub fn vg_as_dims(kind: u64, x: f64, list: &[f64], ty: &[u8], sizes: &mut [u64]) -> Answer
    ensures { handed result sizes.new ≡ listed (deliver_sizes (bound value_as_dims (handed_in kind x list.now ty.now)) sizes.old) }
{
    let Some(v) = choose_value(kind, x) else {
        return Refusal(Reason::OutOfRange, 0).cross();
    };
    cross_dims(val::as_dims(v, list, ty), &mut *sizes)
}

// The value that a number stands for, if it stands for one.
fn choose_value(kind: u64, x: f64) -> Option<Value>
    ensures { ValueFor result kind x }
{
    match kind {
        0 => Some(Value::Num(x)),
        1 => Some(Value::List),
        2 => Some(Value::Of),
        _ => None,
    }
}

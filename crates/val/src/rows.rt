// The rows of a value, which are values again. A number is handed back as it came in; the contracts say so of its value, and by
// these all NaNs are one.
ghost use Rattle.std.specs.Prelude.{◌≡◌};
ghost use Rattle.format.specs.Records.{write_ty};
ghost use Rattle.format.specs.Outcome.{accepted, mapped, lone, deliver};
ghost use Rattle.lent.specs.Written.{delivered};
ghost use Rattle.val.specs.Answers.{value_of, list_row_for, type_row_for, value_row_for, row_delivered};
ghost use Rattle.val.specs.Values.{list_row, list_first, list_last, value_row, value_first_row, value_last_row, deliver_row};

use crate::{Row, RowKind, Value};
use limits::Kind;
use limits::refusal::Refusal;
use record::no_dims;
use writer::write_closed;

#[tactic(auto, unfolding(crate::specs::Values::value_row))]
pub fn into_row(v: Value, list: &[f64], bytes: &[u8], res: &mut [u8]) -> Result<Row, Refusal>
    ensures { row_delivered result res.new ≡ deliver_row (mapped value_row (value_of v list.now bytes.now)) res.old }
{
    row_by(v, RowKind::Every, list, bytes, &mut *res)
}

#[tactic(auto, unfolding(crate::specs::Values::value_first_row))]
pub fn into_first_row(v: Value, list: &[f64], bytes: &[u8], res: &mut [u8]) -> Result<Row, Refusal>
    ensures { row_delivered result res.new ≡ deliver_row (mapped value_first_row (value_of v list.now bytes.now)) res.old }
{
    row_by(v, RowKind::First, list, bytes, &mut *res)
}

#[tactic(auto, unfolding(crate::specs::Values::value_last_row))]
pub fn into_last_row(v: Value, list: &[f64], bytes: &[u8], res: &mut [u8]) -> Result<Row, Refusal>
    ensures { row_delivered result res.new ≡ deliver_row (mapped value_last_row (value_of v list.now bytes.now)) res.old }
{
    row_by(v, RowKind::Last, list, bytes, &mut *res)
}

// All three rows: a number's is itself. A part of each call, which for a number has little else to do.
#[inline(always)]
#[tactic(auto, unfolding(crate::specs::Values::deliver_row))]
fn row_by(
    v: Value,
    which: RowKind,
    list: &[f64],
    bytes: &[u8],
    res: &mut [u8],
) -> Result<Row, Refusal>
    ensures { row_delivered result res.new ≡ deliver_row (mapped (value_row_for which) (value_of v list.now bytes.now)) res.old }
{
    match v {
        Value::Num(x) => Ok(Row::Number(x)),
        Value::List => list_row(which, list, &mut *res),
        Value::Of => type_row(which, bytes, &mut *res).map(Row::Wrote),
    }
}

fn type_row(which: RowKind, bytes: &[u8], res: &mut [u8]) -> Result<usize, Refusal>
    ensures { delivered result res.new ≡ deliver (mapped (λ t. write_ty (type_row_for which t)) (lone bytes.now)) res.old }
{
    match which {
        RowKind::Every => ty::into_row(bytes, &mut *res),
        RowKind::First => ty::into_first_row(bytes, &mut *res),
        RowKind::Last => ty::into_last_row(bytes, &mut *res),
    }
}

fn list_row(which: RowKind, list: &[f64], res: &mut [u8]) -> Result<Row, Refusal>
    ensures { row_delivered result res.new ≡ deliver_row (accepted (list_row_for which list.now)) res.old }
{
    match which {
        RowKind::Every => row_of_list(list, &mut *res),
        RowKind::First => first_of_list(list, &mut *res),
        RowKind::Last => last_of_list(list, &mut *res),
    }
}

// A list of one number is that number, any other list [] Num.
#[tactic(auto, using(crate::proofs::WriteLaws::num_written, crate::proofs::RowLaws::row_one, crate::proofs::RowLaws::row_other), unfolding(crate::specs::Values::deliver_row))]
fn row_of_list(list: &[f64], res: &mut [u8]) -> Result<Row, Refusal>
    ensures { row_delivered result res.new ≡ deliver_row (accepted (list_row list.now)) res.old }
{
    if list.len() == 1 {
        return Ok(Row::Number(list[0]));
    }
    write_closed(no_dims(), Kind::Num.code(), &mut *res).map(Row::Wrote)
}

#[tactic(auto, using(crate::proofs::RowLaws::first_none, crate::proofs::RowLaws::first_some), unfolding(crate::specs::Values::deliver_row))]
fn first_of_list(list: &[f64], res: &mut [u8]) -> Result<Row, Refusal>
    ensures { row_delivered result res.new ≡ deliver_row (accepted (list_first list.now)) res.old }
{
    match list.first() {
        Some(&x) => Ok(Row::Number(x)),
        None => row_of_list(list, &mut *res),
    }
}

#[tactic(auto, using(crate::proofs::RowLaws::last_none, crate::proofs::RowLaws::last_some), unfolding(crate::specs::Values::deliver_row))]
fn last_of_list(list: &[f64], res: &mut [u8]) -> Result<Row, Refusal>
    ensures { row_delivered result res.new ≡ deliver_row (accepted (list_last list.now)) res.old }
{
    match list.last() {
        Some(&x) => Ok(Row::Number(x)),
        None => row_of_list(list, &mut *res),
    }
}

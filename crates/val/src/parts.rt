// The type, the spec and the scalar of a value.
ghost use Rattle.std.specs.Prelude.{◌≡◌};
ghost use Rattle.format.specs.Records.{write_scalar, write_ty};
ghost use Rattle.format.specs.Outcome.{accepted, deliver, mapped, bound};
ghost use Rattle.lent.specs.Written.{delivered};
ghost use Rattle.val.specs.Answers.{value_of};
ghost use Rattle.val.specs.Values.{number, numbers, value_ty, value_spec, nums_scalar, value_scalar};

use crate::Value;
use crate::counts::row_count_of_list;
use crate::write::{one_dim, write_same};
use limits::Kind;
use limits::refusal::Refusal;
use number::{dims_of, kind_of, kind_of_number, listed_dim};
use record::no_dims;
use writer::{scalar_record, write_closed, write_kind};

// A number is [] Num, a list [length] Num, a type itself.
#[tactic(auto, using(crate::proofs::WriteLaws::num_written), unfolding(crate::specs::Values::value_ty))]
pub fn ty(v: Value, list: &[f64], bytes: &[u8], res: &mut [u8]) -> Result<usize, Refusal>
    ensures { delivered result res.new ≡ deliver (mapped write_ty (bound value_ty (value_of v list.now bytes.now))) res.old }
{
    match v {
        Value::Num(_) => write_closed(no_dims(), Kind::Num.code(), &mut *res),
        Value::List => ty_of_list(list, &mut *res),
        Value::Of => write_same(bytes, &mut *res),
    }
}

#[tactic(auto, using(crate::proofs::WriteLaws::num_written, lent::specs::Delivers::deliver_refusal), unfolding(crate::specs::Values::value_ty))]
fn ty_of_list(list: &[f64], res: &mut [u8]) -> Result<usize, Refusal>
    ensures { delivered result res.new ≡ deliver (mapped write_ty (value_ty (numbers list.now))) res.old }
{
    let length = row_count_of_list(list)?;
    write_closed(one_dim(length), Kind::Num.code(), &mut *res)
}

// A number is the size that it stands for, a list its sizes, either of Any; a type is itself.
#[tactic(auto, unfolding(crate::specs::Values::value_spec))]
pub fn spec(v: Value, list: &[f64], bytes: &[u8], res: &mut [u8]) -> Result<usize, Refusal>
    ensures { delivered result res.new ≡ deliver (mapped write_ty (bound value_spec (value_of v list.now bytes.now))) res.old }
{
    match v {
        Value::Num(x) => spec_of_number(x, &mut *res),
        Value::List => spec_of_list(list, &mut *res),
        Value::Of => write_same(bytes, &mut *res),
    }
}

#[tactic(auto, using(crate::proofs::WriteLaws::any_written, lent::specs::Delivers::deliver_refusal), unfolding(crate::specs::Values::value_spec))]
fn spec_of_number(x: f64, res: &mut [u8]) -> Result<usize, Refusal>
    ensures { delivered result res.new ≡ deliver (mapped write_ty (value_spec (number x))) res.old }
{
    match listed_dim(x) {
        Ok(size) => write_closed(one_dim(size), Kind::Any.code(), &mut *res),
        Err(reason) => Err(Refusal(reason, 0)),
    }
}

#[tactic(auto, using(crate::proofs::WriteLaws::any_written, lent::specs::Delivers::deliver_refusal), unfolding(crate::specs::Values::value_spec))]
fn spec_of_list(list: &[f64], res: &mut [u8]) -> Result<usize, Refusal>
    ensures { delivered result res.new ≡ deliver (mapped write_ty (value_spec (numbers list.now))) res.old }
{
    write_closed(dims_of(list)?, Kind::Any.code(), &mut *res)
}

// The kind that fits the values of numbers; a type's own scalar.
#[tactic(auto, using(crate::proofs::WriteLaws::plain_written), unfolding(crate::specs::Values::value_scalar, crate::specs::Values::nums_scalar))]
pub fn scalar(v: Value, list: &[f64], bytes: &[u8], res: &mut [u8]) -> Result<usize, Refusal>
    ensures { delivered result res.new ≡ deliver (mapped write_scalar (mapped value_scalar (value_of v list.now bytes.now))) res.old }
{
    match v {
        Value::Num(x) => write_kind(kind_of_number(x).code(), &mut *res),
        Value::List => nums_scalar(list, &mut *res),
        Value::Of => scalar_record(bytes, &mut *res),
    }
}

#[tactic(auto, using(crate::proofs::WriteLaws::plain_written), unfolding(crate::specs::Values::nums_scalar))]
pub fn nums_scalar(list: &[f64], res: &mut [u8]) -> Result<usize, Refusal>
    ensures { delivered result res.new ≡ deliver (accepted (write_scalar (nums_scalar list.now))) res.old }
{
    write_kind(kind_of(list).code(), &mut *res)
}

// A number as a size, and a list of numbers as sizes.
ghost use Rattle.std.specs.Prelude.{◌≡◌};
ghost use Rattle.format.specs.Outcome.{bound};
ghost use Rattle.val.specs.Answers.{value_of, maybe_dim, maybe_dims};
ghost use Rattle.val.specs.Values.{number, value_as_dim, value_as_dims};

use crate::Value;
use limits::refusal::Refusal;
use number::dims_of;
use record::{Dims, read_lone};

// The size that a number stands for, all ones for either infinity; none for what is no number.
#[tactic(auto, unfolding(crate::specs::Values::value_as_dim))]
pub fn as_dim(v: Value, list: &[f64], bytes: &[u8]) -> Result<Option<u64>, Refusal>
    ensures { maybe_dim result ≡ bound value_as_dim (value_of v list.now bytes.now) }
{
    match v {
        Value::Num(x) => dim_of_number(x),
        Value::List => Ok(None),
        Value::Of => {
            read_lone(bytes)?;
            Ok(None)
        }
    }
}

#[tactic(auto, unfolding(crate::specs::Values::value_as_dim))]
fn dim_of_number(x: f64) -> Result<Option<u64>, Refusal>
    ensures { maybe_dim result ≡ value_as_dim (number x) }
{
    match number::as_dim(x) {
        Ok(size) => Ok(Some(size)),
        Err(reason) => Err(Refusal(reason, 0)),
    }
}

// The sizes that a list stands for, of which minus infinity is refused; none for what is no list.
#[tactic(auto, unfolding(crate::specs::Values::value_as_dims))]
pub fn as_dims(v: Value, list: &[f64], bytes: &[u8]) -> Result<Option<Dims>, Refusal>
    ensures { maybe_dims result ≡ bound value_as_dims (value_of v list.now bytes.now) }
{
    match v {
        Value::Num(_) => Ok(None),
        Value::List => Ok(Some(dims_of(list)?)),
        Value::Of => {
            read_lone(bytes)?;
            Ok(None)
        }
    }
}

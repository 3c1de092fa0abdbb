// Two sizes handed in as numbers. One above 2^53 that is not all ones is refused.
ghost use Rattle.std.specs.Prelude.{◌≡◌};
ghost use Rattle.format.specs.Records.{dim_of};
ghost use Rattle.format.specs.Outcome.{mapped, both};
ghost use Rattle.limits.specs.Answers.{told};
ghost use Rattle.record.specs.Answers.{nothings, lone_of};
ghost use Rattle.shape.specs.Answers.{order_of};
ghost use Rattle.shape_calls.specs.Calls.{is_size, size_at, cmp_call, cmp_defined_call, max_call, join_sizes_call, compatible_call, row_compatible_call};

use limits::refusal::{Reason, Refusal};
use limits::{MAX_SIZE, UNKNOWN};
use shape::{cmp, cmp_defined, compatible, join_sizes, larger, row_compatible};
use std::cmp::Ordering;

pub fn dim_cmp(a: u64, b: u64) -> Result<Ordering, Refusal>
    ensures { mapped order_of (told result) ≡ cmp_call a b }
{
    judge_sizes(a, b)?;
    Ok(cmp(a, b))
}

pub fn dim_cmp_defined(a: u64, b: u64) -> Result<Ordering, Refusal>
    ensures { mapped order_of (told result) ≡ cmp_defined_call a b }
{
    judge_sizes(a, b)?;
    Ok(cmp_defined(a, b))
}

pub fn dim_max(a: u64, b: u64) -> Result<u64, Refusal>
    ensures { mapped dim_of (told result) ≡ max_call a b }
{
    judge_sizes(a, b)?;
    Ok(larger(a, b))
}

pub fn dim_join(a: u64, b: u64) -> Result<u64, Refusal>
    ensures { mapped dim_of (told result) ≡ join_sizes_call a b }
{
    judge_sizes(a, b)?;
    Ok(join_sizes(a, b))
}

pub fn dim_compatible(a: u64, b: u64) -> Result<bool, Refusal>
    ensures { told result ≡ compatible_call a b }
{
    judge_sizes(a, b)?;
    Ok(compatible(a, b))
}

pub fn dim_row_compatible(a: u64, b: u64) -> Result<bool, Refusal>
    ensures { told result ≡ row_compatible_call a b }
{
    judge_sizes(a, b)?;
    Ok(row_compatible(a, b))
}

// Whether both are sizes: the first is judged before the second.
fn judge_sizes(a: u64, b: u64) -> Result<(), Refusal>
    ensures { lone_of result ≡ both nothings (size_at 0 a) (size_at 1 b) }
{
    if !is_size(a) {
        return Err(Refusal(Reason::Oversized, 0));
    }
    if !is_size(b) {
        return Err(Refusal(Reason::Oversized, 1));
    }
    Ok(())
}

fn is_size(n: u64) -> bool
    ensures { result ≡ is_size n }
{
    n == UNKNOWN || n <= MAX_SIZE
}

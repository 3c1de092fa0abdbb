// Two sizes, each a number, of which all ones is unknown: the methods of `Dim`.
ghost use Rattle.std.specs.Prelude.{◌≡◌};
ghost use Rattle.format.specs.Records.{dim_of};
ghost use Rattle.rules.specs.Sizes.{cmp_number, cmp_dim, cmp_defined, join_dim, larger, compatible, row_compatible};
ghost use Rattle.shape.specs.Answers.{order_of};

use limits::UNKNOWN;
use std::cmp::Ordering;

// `Dim`'s order, which is no chain: 0 < 1, 1 < ?, ? < 0.
#[tactic(auto, unfolding(rules::specs::Sizes::cmp_dim))]
pub fn cmp(a: u64, b: u64) -> Ordering
    ensures { order_of result ≡ cmp_dim (dim_of a) (dim_of b) }
{
    if a == UNKNOWN {
        if b == UNKNOWN {
            return Ordering::Equal;
        }
        if b == 1 {
            return Ordering::Greater;
        }
        return Ordering::Less;
    }
    if b == UNKNOWN {
        if a == 1 {
            return Ordering::Less;
        }
        return Ordering::Greater;
    }
    cmp_numbers(a, b)
}

// The order that puts ? below all statics.
#[tactic(auto, unfolding(rules::specs::Sizes::cmp_defined))]
pub fn cmp_defined(a: u64, b: u64) -> Ordering
    ensures { order_of result ≡ cmp_defined (dim_of a) (dim_of b) }
{
    if a == UNKNOWN {
        if b == UNKNOWN {
            return Ordering::Equal;
        }
        return Ordering::Less;
    }
    if b == UNKNOWN {
        return Ordering::Greater;
    }
    cmp_numbers(a, b)
}

fn cmp_numbers(a: u64, b: u64) -> Ordering
    ensures { order_of result ≡ cmp_number a b }
{
    a.cmp(&b)
}

// The larger of two sizes in `Dim`'s order.
#[tactic(auto, unfolding(rules::specs::Sizes::larger))]
pub fn larger(a: u64, b: u64) -> u64
    ensures { dim_of result ≡ larger (dim_of a) (dim_of b) }
{
    match cmp(a, b) {
        Ordering::Less | Ordering::Equal => b,
        Ordering::Greater => a,
    }
}

// Equal, or either unknown.
#[tactic(auto, unfolding(rules::specs::Sizes::compatible))]
pub fn compatible(a: u64, b: u64) -> bool
    ensures { result ≡ compatible (dim_of a) (dim_of b) }
{
    a == UNKNOWN || b == UNKNOWN || a == b
}

// Equal, or either 1 or unknown.
#[tactic(auto, unfolding(rules::specs::Sizes::row_compatible))]
pub fn row_compatible(a: u64, b: u64) -> bool
    ensures { result ≡ row_compatible (dim_of a) (dim_of b) }
{
    compatible(a, b) || a == 1 || b == 1
}

// Equal statics stay, all else is unknown.
#[tactic(auto, unfolding(rules::specs::Sizes::join_dim))]
pub fn join_sizes(a: u64, b: u64) -> u64
    ensures { dim_of result ≡ join_dim (dim_of a) (dim_of b) }
{
    if a == b { a } else { UNKNOWN }
}

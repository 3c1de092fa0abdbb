// The order of shapes by value: lists by the first difference, then length.
ghost use Rattle.std.specs.Prelude.{◌≡◌};
ghost use Rattle.record.specs.Answers.{dims_of, closing_for, shape_for};
ghost use Rattle.rules.specs.Sizes.{cmp_dim};
ghost use Rattle.rules.specs.Order.{cmp_list, cmp_option, cmp_shape};
ghost use Rattle.shape.specs.Answers.{order_of};

use record::{Dims, DynShape};
use shape::cmp;
use std::cmp::Ordering;
use writer::size_count;

// Opening sizes before closing ones.
#[tactic(auto, unfolding(rules::specs::Order::cmp_shape))]
pub fn cmp_shape(a: DynShape, b: DynShape) -> Ordering
    ensures { order_of result ≡ cmp_shape (shape_for a) (shape_for b) }
{
    match cmp_dims(a.dims, b.dims) {
        Ordering::Equal => cmp_closing(a, b),
        unequal => unequal,
    }
}

// Closed before open.
fn cmp_closing(a: DynShape, b: DynShape) -> Ordering
    ensures { order_of result ≡ cmp_option (cmp_list cmp_dim) (closing_for a) (closing_for b) }
{
    match (a.closed, b.closed) {
        (true, true) => Ordering::Equal,
        (true, false) => Ordering::Less,
        (false, true) => Ordering::Greater,
        (false, false) => cmp_dims(a.suffix, b.suffix),
    }
}

#[tactic(auto, using(crate::proofs::ListLaws::walking))]
fn cmp_dims(a: Dims, b: Dims) -> Ordering
    ensures { order_of result ≡ cmp_list cmp_dim (dims_of a) (dims_of b) }
{
    let m = size_count(a);
    let n = size_count(b);
    for i in 0..m {
        if i == n {
            return Ordering::Greater;
        }
        match cmp(a.sizes[i], b.sizes[i]) {
            Ordering::Equal => {}
            unequal => return unequal,
        }
    }
    if m < n {
        Ordering::Less
    } else {
        Ordering::Equal
    }
}

// Shapes by value: the methods of `DynShape` and its join.
ghost use Rattle.std.specs.Prelude.{◌≡◌, cond, ◌≤◌, ◌+◌};
ghost use Rattle.std.proofs.Math.Option.{none, some};
ghost use Rattle.model.specs.Limits.{max_sizes};
ghost use Rattle.model.specs.Types.{shape};
ghost use Rattle.format.specs.Records.{dim_of};
ghost use Rattle.record.specs.Answers.{dims_of, closing_for, shape_for};
ghost use Rattle.rules.specs.Shapes.{is_scalar, is_any, row_count, rank, row_shape, compatible_with, is_yes, merge_closing, merge_from, join_shapes};
ghost use Rattle.shape.specs.Answers.{compatibility_of};

use crate::Compatibility;
use crate::dims::{compatible_dims, get, join_dims, join_ends, merge_dims, rest_dims};
use limits::UNKNOWN;
use record::{Dims, DynShape};
use writer::size_count;

// The first opening size; without one, unknown if open, else 1.
#[tactic(auto, using(crate::proofs::ShapeLaws::rows_closed, crate::proofs::ShapeLaws::rows_open))]
pub fn row_count(shape: DynShape) -> u64
    ensures { dim_of result ≡ row_count (shape_for shape) }
{
    let nameless = if shape.closed { 1 } else { UNKNOWN };
    get(shape.dims, 0).unwrap_or(nameless)
}

// Both counts added.
#[tactic(auto, using(crate::proofs::ShapeLaws::rank_by_counts))]
pub fn rank(shape: DynShape) -> usize
    ensures { (result ≡ rank (shape_for shape)) × (result ≤ max_sizes + max_sizes) }
{
    let opening = size_count(shape.dims);
    if shape.closed {
        return opening;
    }
    opening + size_count(shape.suffix)
}

#[tactic(auto, using(crate::proofs::ShapeLaws::any_by_counts))]
pub fn is_any(shape: DynShape) -> bool
    ensures { result ≡ is_any (shape_for shape) }
{
    size_count(shape.dims) == 0 && !shape.closed && size_count(shape.suffix) == 0
}

#[tactic(auto, using(crate::proofs::ShapeLaws::scalar_by_count))]
pub fn is_scalar(shape: DynShape) -> bool
    ensures { result ≡ is_scalar (shape_for shape) }
{
    size_count(shape.dims) == 0 && shape.closed
}

// Drops the first opening size, else the first closing one.
#[tactic(auto, using(crate::proofs::ShapeLaws::rows))]
pub fn into_row(shape: DynShape) -> DynShape
    ensures { shape_for result ≡ row_shape (shape_for shape) }
{
    if 0 < size_count(shape.dims) {
        return of_parts(rest_dims(shape.dims), shape.suffix, shape.closed);
    }
    of_parts(shape.dims, rest_dims(shape.suffix), shape.closed)
}

// Closing sizes are not looked at.
#[tactic(auto, unfolding(rules::specs::Shapes::compatible_with))]
pub fn compatible_with(a: DynShape, b: DynShape) -> Compatibility
    ensures { compatibility_of result ≡ compatible_with (shape_for a) (shape_for b) }
{
    compatible_dims(a.dims, b.dims)
}

// What relies on the test goes by its yes.
pub fn is_yes(answer: Compatibility) -> bool
    ensures { result ≡ is_yes (compatibility_of answer) }
{
    matches!(answer, Compatibility::Yes)
}

#[tactic(auto, unfolding(rules::specs::Shapes::merge_from))]
pub fn merge_from(a: DynShape, b: DynShape) -> DynShape
    ensures { shape_for result ≡ merge_from (shape_for a) (shape_for b) }
{
    merge_closing(merge_dims(a.dims, b.dims), a, b)
}

// Open with none named against closed gives closed; named closing sizes stay; closed against open takes the other's.
#[tactic(auto, using(crate::proofs::ShapeLaws::merging))]
fn merge_closing(dims: Dims, a: DynShape, b: DynShape) -> DynShape
    ensures { shape_for result ≡ shape (dims_of dims) (merge_closing (closing_for a) (closing_for b)) }
{
    if a.closed {
        return of_parts(dims, b.suffix, b.closed);
    }
    if b.closed {
        return of_parts(dims, a.suffix, size_count(a.suffix) == 0);
    }
    of_parts(dims, merge_dims(a.suffix, b.suffix), false)
}

// A closing list exists only if both have one.
#[tactic(auto, using(crate::proofs::ShapeLaws::join_by_parts))]
pub fn join(a: DynShape, b: DynShape) -> DynShape
    ensures { shape_for result ≡ join_shapes (shape_for a) (shape_for b) }
{
    let dims = join_dims(a.dims, b.dims);
    let suffix = join_ends(a.suffix, b.suffix);
    of_parts(dims, suffix, a.closed || b.closed)
}

// A shape of its parts; closing sizes of a closed one say nothing.
pub fn of_parts(dims: Dims, suffix: Dims, closed: bool) -> DynShape
    ensures { shape_for result ≡ shape (dims_of dims) (cond closed none (some (dims_of suffix))) }
{
    DynShape {
        dims,
        suffix,
        closed,
    }
}

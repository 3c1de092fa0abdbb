// `check_shape` on shapes by value.
ghost use Rattle.std.specs.Prelude.{◌≡◌};
ghost use Rattle.std.proofs.Math.Option.{none, some};
ghost use Rattle.model.specs.Types.{shape};
ghost use Rattle.record.specs.Answers.{dims_of, shape_for};
ghost use Rattle.rules.specs.Shapes.{merge_from};
ghost use Rattle.validation.specs.CheckShape.{unsided, left, right, sizes_agree, clash, mismatch, shape_mismatch, sided_shape, check_shape};
ghost use Rattle.validate.specs.Answers.{side_of, clash_of, checked_of};

use crate::Side;
use crate::dims::{agree, agree_ends};
use limits::refusal::Reason;
use record::{Dims, DynShape, no_dims};
use shape::{compatible, is_any, merge_from};
use writer::size_count;

// The count test, whether the sizes agree, and whether all are named: what a mismatch is refused with.
fn judge(count: bool, sizes: bool, all: bool) -> Result<(), Reason>
    ensures { clash_of result ≡ clash count sizes all }
{
    if !count {
        return Err(Reason::WrongCount);
    }
    if !sizes {
        return Err(Reason::WrongShape);
    }
    if !all {
        return Err(Reason::WrongCount);
    }
    Ok(())
}

// The opening sizes of a spec against a closed type's, without a side.
pub fn mismatch_closed(o: Dims, dims: Dims) -> Result<(), Reason>
    ensures { clash_of result ≡ mismatch unsided (dims_of o) (shape (dims_of dims) none) }
{
    judge(
        size_count(dims) == size_count(o),
        agree(dims, o, |x, y| compatible(x, y)),
        true,
    )
}

// The same against a type's shape.
#[tactic(auto, using(crate::proofs::ShapesLaws::unsided_open))]
fn mismatch_unsided(o: Dims, t: DynShape) -> Result<(), Reason>
    ensures { clash_of result ≡ mismatch unsided (dims_of o) (shape_for t) }
{
    if t.closed {
        return mismatch_closed(o, t.dims);
    }
    let count = size_count(o);
    let named = size_count(t.dims) + size_count(t.suffix);
    judge(
        named <= count,
        open_agrees(o, t.dims, t.suffix),
        count <= named,
    )
}

// An open type's opening sizes are the spec's from the front, its closing ones what the spec has left from the end, as far as both go.
fn open_agrees(o: Dims, dims: Dims, suffix: Dims) -> bool
    ensures { result ≡ sizes_agree unsided (dims_of o) (shape (dims_of dims) (some (dims_of suffix))) }
{
    agree(dims, o, |x, y| x == y) && agree_ends(suffix, o, size_count(dims), |x, y| x == y)
}

fn mismatch_left(o: Dims, t: DynShape) -> Result<(), Reason>
    ensures { clash_of result ≡ mismatch left (dims_of o) (shape_for t) }
{
    let few = !t.closed || size_count(o) <= size_count(t.dims);
    judge(few, agree(t.dims, o, |x, y| compatible(x, y)), true)
}

fn mismatch_right(o: Dims, t: DynShape) -> Result<(), Reason>
    ensures { clash_of result ≡ mismatch right (dims_of o) (shape_for t) }
{
    if t.closed {
        return judge(
            size_count(o) <= size_count(t.dims),
            agree_ends(t.dims, o, 0, |x, y| compatible(x, y)),
            true,
        );
    }
    let named = size_count(t.dims) + size_count(t.suffix);
    judge(
        size_count(o) <= named,
        agree_ends(t.suffix, o, 0, |x, y| compatible(x, y)),
        true,
    )
}

fn mismatch(side: Side, o: Dims, t: DynShape) -> Result<(), Reason>
    ensures { clash_of result ≡ mismatch (side_of side) (dims_of o) (shape_for t) }
{
    match side {
        Side::Unsided => mismatch_unsided(o, t),
        Side::Left => mismatch_left(o, t),
        Side::Right => mismatch_right(o, t),
    }
}

// [..] on either side excuses a mismatch.
#[tactic(auto, using(crate::proofs::ShapesLaws::excused_spec, crate::proofs::ShapesLaws::excused_type, crate::proofs::ShapesLaws::not_excused))]
fn find_clash(side: Side, spec: DynShape, t: DynShape) -> Result<(), Reason>
    ensures { clash_of result ≡ shape_mismatch (side_of side) (shape_for spec) (shape_for t) }
{
    if is_any(spec) || is_any(t) {
        return Ok(());
    }
    mismatch(side, spec.dims, t)
}

// The merge with what a side takes of the spec: without one all of it, with one its opening sizes alone, open, and for the right side as
// closing sizes. Each side merges for itself, since a shape chosen first would be copied.
#[tactic(auto, using(crate::proofs::ShapesLaws::sided_not, crate::proofs::ShapesLaws::sided_left, crate::proofs::ShapesLaws::sided_right))]
fn merge_sided(side: Side, t: DynShape, spec: DynShape) -> DynShape
    ensures { shape_for result ≡ merge_from (shape_for t) (sided_shape (side_of side) (shape_for spec)) }
{
    match side {
        Side::Unsided => merge_from(t, spec),
        Side::Left => merge_from(
            t,
            DynShape {
                dims: spec.dims,
                suffix: no_dims(),
                closed: false,
            },
        ),
        Side::Right => merge_from(
            t,
            DynShape {
                dims: no_dims(),
                suffix: spec.dims,
                closed: false,
            },
        ),
    }
}

// A spec's shape on a type's.
#[tactic(auto, using(crate::proofs::ShapesLaws::clashed, crate::proofs::ShapesLaws::merged))]
pub fn check_shapes(side: Side, spec: DynShape, t: DynShape) -> Result<DynShape, Reason>
    ensures { checked_of result ≡ check_shape (side_of side) (shape_for spec) (shape_for t) }
{
    find_clash(side, spec, t)?;
    Ok(merge_sided(side, t, spec))
}

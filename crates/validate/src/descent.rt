// Validation of types that stand at their places: type validation calls scalar validation, which calls type validation on box
// contents, unsided. The spec's type stands at i and the type's at j; of the outermost type, `others` types stand elsewhere and `above`
// around this one. What the type then is goes to a buffer from `to` on; a refusal says nothing of the buffer. The merged shape is
// written first, since its length is needed, though a clash of shapes is answered only after one of scalars.
ghost use Rattle.std.specs.Prelude.{◌+◌, ◌-◌, ◌*◌, ◌≤◌, length};
ghost use Rattle.format.specs.Suffices.{box_bytes};
ghost use Rattle.model.specs.Limits.{max_types};
ghost use Rattle.validate.specs.Answers.{side_of};
ghost use Rattle.validate.specs.Plans.{Pair, TwoLists};
ghost use Rattle.validate.specs.Walk.{type_bytes, TypeDone, ScalarDone, FieldsDone};

use crate::copies::{copy_fields, copy_scalar};
use crate::heads::put_name;
use crate::lists::{next_place, next_type, types_in};
use crate::plans::plan_scalar;
use crate::shapes::check_shapes;
use crate::{Extent, Items, Plan, Side};
use known::{shape_at, span_at};
use limits::Form;
use limits::records::ANY_TYPE;
use limits::refusal::Reason;
use writer::{put_box, put_shape};

#[cycle(checking)]
pub fn check_type(
    side: Side,
    spec: &[u8],
    i: usize,
    ty: &[u8],
    j: usize,
    others: u64,
    above: u64,
    out: &mut [u8],
    to: usize,
) -> Result<Extent, Reason>
    requires { Pair spec.now i ty.now j others above × (to + type_bytes * (max_types - others) ≤ length out.old) }
    ensures { (w : Pair spec.now i ty.now j others above) → TypeDone (side_of side) w to out.old result out.new }
{
    let own = shape_at(ty, j);
    let checked = check_shapes(side, shape_at(spec, i), own);
    let start = put_shape(&mut *out, to, checked.unwrap_or(own));
    let scalar = check_scalar_at(spec, i, ty, j, others, above, &mut *out, start)?;
    checked?;
    Ok(Extent {
        end: scalar.end,
        types: scalar.types + 1,
    })
}

#[cycle(checking)]
pub fn check_scalar_at(
    spec: &[u8],
    i: usize,
    ty: &[u8],
    j: usize,
    others: u64,
    above: u64,
    out: &mut [u8],
    to: usize,
) -> Result<Extent, Reason>
    requires { Pair spec.now i ty.now j others above × (to + box_bytes + type_bytes * (max_types - 1 - others) ≤ length out.old) }
    ensures { (w : Pair spec.now i ty.now j others above) → ScalarDone w to out.old result out.new }
{
    match plan_scalar(spec, i, ty, j, others, above)? {
        Plan::Keep => Ok(copy_scalar(ty, j, &mut *out, to)),
        Plan::Take => Ok(copy_scalar(spec, i, &mut *out, to)),
        Plan::Inside { content, other } => {
            let inner = put_box(&mut *out, to, Form::All.code());
            check_type(
                Side::Unsided,
                spec,
                content,
                ty,
                other,
                others + 1,
                above + 1,
                &mut *out,
                inner,
            )
        }
        Plan::Pairs {
            wanted,
            own,
            fresh,
            name,
            borrowed,
        } => {
            let start = put_name(spec, ty, borrowed, name, own.count as u8, &mut *out, to);
            if fresh {
                return check_fields(
                    spec,
                    wanted,
                    &ANY_TYPE,
                    own,
                    others + 1,
                    above + 1,
                    &mut *out,
                    start,
                );
            }
            check_fields(
                spec,
                wanted,
                ty,
                own,
                others + 1,
                above + 1,
                &mut *out,
                start,
            )
        }
    }
}

// Two lists of fields, pair by pair as far as both go; what is left of the type's stays.
#[cycle(checking)]
fn check_fields(
    spec: &[u8],
    wanted: Items,
    source: &[u8],
    own: Items,
    others: u64,
    above: u64,
    out: &mut [u8],
    to: usize,
) -> Result<Extent, Reason>
    requires { TwoLists spec.now wanted source.now own others above × (to + type_bytes * (max_types - others) ≤ length out.old) }
    ensures { (w : TwoLists spec.now wanted source.now own others above) → FieldsDone w to out.old result out.new }
{
    let mut i = wanted.at;
    let mut j = own.at;
    let mut end = to;
    let mut before = others;
    let mut rest = types_in(source, own.at, own.count, own.moves);
    for k in 0..wanted.count {
        if k == own.count {
            return Ok(Extent {
                end,
                types: before - others,
            });
        }
        let span = span_at(source, j);
        rest -= span.types;
        let field = check_type(
            Side::Unsided,
            spec,
            i,
            source,
            j,
            before + rest,
            above,
            &mut *out,
            end,
        )?;
        i = next_type(spec, i, wanted.moves);
        j = next_place(j, span.end, own.moves);
        end = field.end;
        before += field.types;
    }
    let left = own.count - wanted.count;
    let tail = copy_fields(source, j, left, own.moves, &mut *out, end);
    Ok(Extent {
        end: tail.end,
        types: before - others + tail.types,
    })
}

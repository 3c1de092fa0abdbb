// What a spec's scalar asks of a type's, with nothing written yet. Box contents are left to the walk.
ghost use Rattle.std.specs.Prelude.{◌≡◌, true, false, List, ℕ, ◌+◌, ◌≤◌, ◌<◌};
ghost use Rattle.model.specs.Limits.{max_types, max_depth};
ghost use Rattle.model.specs.Types.{Shape, Scalar, Ty, ty, scalar_of};
ghost use Rattle.record.specs.Answers.{shape_for};
ghost use Rattle.limits.specs.Codes.{code_for};
ghost use Rattle.rules.specs.Order.{code_of};
ghost use Rattle.rules.specs.Shapes.{is_any};
ghost use Rattle.rules.specs.Types.{wholly_any};
ghost use Rattle.validation.specs.AsFields.{fields_for};
ghost use Rattle.validation.specs.MeasureLaws.{limited};
ghost use Rattle.known.specs.Known.{TypeAt, HasType};
ghost use Rattle.validate.specs.Plans.{Viewed, HasView, SomeView, Pair, Planned, PlannedKeep, PlannedTake, PlannedAll, PlannedDef, PlannedCopies, PlannedNamed};

use crate::{Items, Plan};
use kind_table::superset;
use known::{View, any_shape_at, look, scalar_at, shape_at, span_at};
use limits::refusal::Reason;
use limits::{Kind, MAX_DEPTH, MAX_FIELDS, MAX_TYPES, UNKNOWN};
use record::DynShape;
use writer::size_count;

// The kind of a scalar.
fn kind_of(v: View) -> Kind
    ensures { (s : List ℕ) (k : Scalar) → Viewed s k v → code_for result ≡ code_of k }
{
    match v {
        View::Plain { kind, end: _ } => kind,
        View::BoxAny { end: _ } => Kind::Box,
        View::BoxAll { content: _ } => Kind::Box,
        View::BoxDef {
            name: _,
            named: _,
            fields: _,
            count: _,
        } => Kind::Box,
    }
}

// [..] of Any: whether the shape is [..] is known.
fn wholly_any(any: bool, v: View) -> bool
    ensures { (s : List ℕ) (p : Shape) (k : Scalar) → any ≡ is_any p → Viewed s k v → result ≡ wholly_any (ty p k) }
{
    any && kind_of(v) == Kind::Any
}

// Whether the scalar of the type at `at` keeps to the limits where `others` types stand elsewhere and `above` types around it.
fn limited_at(s: &[u8], at: usize, others: u64, above: u64) -> bool
    requires { HasType s.now at max_depth × (others ≤ max_types) × (above ≤ max_depth) }
    ensures { (t : Ty) → TypeAt s.now at max_depth t → result ≡ limited others above (scalar_of t) }
{
    let span = span_at(s, at);
    others + span.types <= MAX_TYPES && above + span.depth <= MAX_DEPTH
}

// The type keeps its scalar if the spec is a superset.
fn keep_if(over: bool) -> Result<Plan, Reason>
    ensures { PlannedKeep over result }
{
    if over {
        return Ok(Plan::Keep);
    }
    Err(Reason::WrongScalar)
}

// The spec's scalar is taken if the whole keeps to the limits with it.
fn take_if(spec: &[u8], i: usize, others: u64, above: u64) -> Result<Plan, Reason>
    requires { HasType spec.now i max_depth × (others ≤ max_types) × (above ≤ max_depth) }
    ensures { PlannedTake spec.now i others above result }
{
    if limited_at(spec, i, others, above) {
        return Ok(Plan::Take);
    }
    Err(Reason::TooMany)
}

// The number of fields: the spec's, or the static size of a closed shape of one.
#[tactic(auto, using(crate::proofs::PlanLaws::fields_open, crate::proofs::PlanLaws::fields_many, crate::proofs::PlanLaws::fields_unknown, crate::proofs::PlanLaws::fields_one))]
fn fields_for(t: DynShape, n: u64) -> u64
    ensures { result ≡ fields_for (shape_for t) n }
{
    if !t.closed || size_count(t.dims) != 1 {
        return n;
    }
    let size = t.dims.sizes[0];
    if size == UNKNOWN { n } else { size }
}

// An All spec, whose content stands at `content`.
fn plan_all(
    spec: &[u8],
    i: usize,
    content: usize,
    v: View,
    others: u64,
    above: u64,
) -> Result<Plan, Reason>
    requires { SomeView v × HasType spec.now i max_depth × (others ≤ max_types) × (above ≤ max_depth) }
    ensures { PlannedAll spec.now i content v others above result }
{
    match v {
        View::Plain { kind, end: _ } => keep_if(superset(Kind::Box, kind)),
        View::BoxAny { end: _ } => take_if(spec, i, others, above),
        View::BoxAll { content: other } => Ok(Plan::Inside { content, other }),
        View::BoxDef {
            name,
            named: _,
            fields,
            count,
        } => {
            let wanted = Items {
                at: content,
                count,
                moves: false,
            };
            let own = Items {
                at: fields,
                count,
                moves: true,
            };
            Ok(Plan::Pairs {
                wanted,
                own,
                fresh: false,
                name,
                borrowed: false,
            })
        }
    }
}

// A Def spec without a name, whose fields stand at `fields`.
fn plan_unnamed(
    spec: &[u8],
    i: usize,
    name: usize,
    fields: usize,
    limit: u64,
    v: View,
    others: u64,
    above: u64,
) -> Result<Plan, Reason>
    requires { SomeView v × HasType spec.now i max_depth × (others ≤ max_types) × (above ≤ max_depth) }
    ensures { PlannedDef spec.now i name false fields limit v others above result }
{
    match v {
        View::Plain { kind, end: _ } => keep_if(superset(Kind::Box, kind)),
        View::BoxAny { end: _ } => take_if(spec, i, others, above),
        View::BoxAll { content: _ } => Ok(Plan::Keep),
        View::BoxDef {
            name: title,
            named: _,
            fields: other,
            count,
        } => {
            let wanted = Items {
                at: fields,
                count: limit,
                moves: true,
            };
            let own = Items {
                at: other,
                count,
                moves: true,
            };
            Ok(Plan::Pairs {
                wanted,
                own,
                fresh: false,
                name: title,
                borrowed: false,
            })
        }
    }
}

// A Def under the spec's name, of n copies of the type at `other`, which is so many types and so deep.
fn plan_copies(
    n: u64,
    many: u64,
    deep: u64,
    other: usize,
    fresh: bool,
    name: usize,
    fields: usize,
    limit: u64,
    others: u64,
    above: u64,
) -> Result<Plan, Reason>
    requires { (others ≤ max_types) × (above ≤ max_depth) × (many ≤ max_types) × (deep ≤ max_depth) }
    ensures { PlannedCopies n many deep other fresh name fields limit others above result }
{
    if MAX_FIELDS < n || MAX_TYPES < others + 1 + n * many {
        return Err(Reason::TooMany);
    }
    if 0 < n && MAX_DEPTH < above + 1 + deep {
        return Err(Reason::TooMany);
    }
    let wanted = Items {
        at: fields,
        count: limit,
        moves: true,
    };
    let own = Items {
        at: other,
        count: n,
        moves: false,
    };
    Ok(Plan::Pairs {
        wanted,
        own,
        fresh,
        name,
        borrowed: true,
    })
}

// A Def spec with a name, which runs `as_mut_fields` on the type, of which the shape t and the view v are known.
fn plan_named(
    name: usize,
    fields: usize,
    limit: u64,
    t: DynShape,
    ty: &[u8],
    v: View,
    others: u64,
    above: u64,
) -> Result<Plan, Reason>
    requires { HasView ty.now v × (others ≤ max_types) × (above ≤ max_depth) }
    ensures { PlannedNamed name fields limit (shape_for t) ty.now v others above result }
{
    let n = fields_for(t, limit);
    match v {
        View::Plain { kind, end: _ } => {
            if kind == Kind::Any {
                return plan_copies(n, 1, 1, 0, true, name, fields, limit, others, above);
            }
            keep_if(superset(Kind::Box, kind))
        }
        View::BoxAny { end: _ } => {
            plan_copies(n, 1, 1, 0, true, name, fields, limit, others, above)
        }
        View::BoxAll { content } => {
            let span = span_at(ty, content);
            plan_copies(
                n, span.types, span.depth, content, false, name, fields, limit, others, above,
            )
        }
        View::BoxDef {
            name: title,
            named,
            fields: other,
            count,
        } => {
            let wanted = Items {
                at: fields,
                count: limit,
                moves: true,
            };
            let own = Items {
                at: other,
                count,
                moves: true,
            };
            if named {
                return Ok(Plan::Pairs {
                    wanted,
                    own,
                    fresh: false,
                    name: title,
                    borrowed: false,
                });
            }
            Ok(Plan::Pairs {
                wanted,
                own,
                fresh: false,
                name,
                borrowed: true,
            })
        }
    }
}

// What a spec's scalar asks of a type's.
pub fn plan_scalar(
    spec: &[u8],
    i: usize,
    ty: &[u8],
    j: usize,
    others: u64,
    above: u64,
) -> Result<Plan, Reason>
    requires { Pair spec.now i ty.now j others above }
    ensures { (w : Pair spec.now i ty.now j others above) → Planned w result }
{
    let a = look(spec, scalar_at(spec, i));
    let b = look(ty, scalar_at(ty, j));
    if wholly_any(any_shape_at(ty, j), b) {
        return take_if(spec, i, others, above);
    }
    match a {
        View::Plain { kind, end: _ } => keep_if(superset(kind, kind_of(b))),
        View::BoxAny { end: _ } => keep_if(superset(Kind::Box, kind_of(b))),
        View::BoxAll { content } => plan_all(spec, i, content, b, others, above),
        View::BoxDef {
            name,
            named,
            fields,
            count,
        } => {
            if named {
                let t = shape_at(ty, j);
                return plan_named(name, fields, count, t, ty, b, others, above);
            }
            plan_unnamed(spec, i, name, fields, count, b, others, above)
        }
    }
}

// How many types a type is, how deep it is, and where it ends: by skipping what stands in it, with a falling depth.
ghost use Rattle.std.specs.Prelude.{◌≡◌, ℕ, ◌<◌};
ghost use Rattle.model.specs.Limits.{max_depth};
ghost use Rattle.model.specs.Types.{Scalar, Fields, Ty, field_count};
ghost use Rattle.known.specs.Known.{TypeAt, ScalarAt, FieldsAt, HasType, HasScalar, HasFields, SpanIs, ScalarSpan, FieldsSpan, FieldIs};

use crate::scalars::look;
use crate::shapes::scalar_at;
use crate::{Span, View};
use limits::MAX_DEPTH;

pub fn span_at(s: &[u8], at: usize) -> Span
    requires { HasType s.now at max_depth }
    ensures { (t : Ty) → TypeAt s.now at max_depth t → SpanIs at t result }
{
    skip_type(s, at, MAX_DEPTH)
}

#[cycle(skipping)]
fn skip_type(s: &[u8], at: usize, depth: u64) -> Span
    requires { HasType s.now at depth }
    ensures { (t : Ty) → TypeAt s.now at depth t → SpanIs at t result }
{
    let scalar = skip_scalar(s, scalar_at(s, at), depth - 1);
    Span {
        types: scalar.types + 1,
        depth: scalar.depth + 1,
        end: scalar.end,
    }
}

// Of a scalar, how many types stand inside it, how deep they are, and the place after it.
#[cycle(skipping)]
fn skip_scalar(s: &[u8], at: usize, depth: u64) -> Span
    requires { HasScalar s.now at depth }
    ensures { (k : Scalar) → ScalarAt s.now at depth k → ScalarSpan at k result }
{
    match look(s, at) {
        View::Plain { kind: _, end } => Span {
            types: 0,
            depth: 0,
            end,
        },
        View::BoxAny { end } => Span {
            types: 0,
            depth: 0,
            end,
        },
        View::BoxAll { content } => skip_type(s, content, depth),
        View::BoxDef {
            name: _,
            named: _,
            fields,
            count,
        } => skip_fields(s, fields, count, depth),
    }
}

// The same of fields.
#[cycle(skipping)]
fn skip_fields(s: &[u8], start: usize, count: u64, depth: u64) -> Span
    requires { HasFields s.now start depth count }
    ensures { (f : Fields) → FieldsAt s.now start depth f → field_count f ≡ count → FieldsSpan start f result }
{
    let mut types = 0;
    let mut deepest = 0;
    let mut at = start;
    for _ in 0..count {
        let field = skip_type(s, at, depth);
        types += field.types;
        deepest = field.depth.max(deepest);
        at = field.end;
    }
    Span {
        types,
        depth: deepest,
        end: at,
    }
}

// Where field n begins, of fields that begin at `fields`.
pub fn field_at(s: &[u8], fields: usize, n: u64) -> usize
    requires { (count : ℕ) × (n < count) × HasFields s.now fields max_depth count }
    ensures { (f : Fields) → FieldsAt s.now fields max_depth f → n < field_count f → FieldIs s.now fields max_depth n f result }
{
    let mut at = fields;
    for _ in 0..n {
        let field = skip_type(s, at, MAX_DEPTH);
        at = field.end;
    }
    at
}

// `compatible_with_boxes`: two All boxes are asked for their contents, all others by kind.
ghost use Rattle.std.specs.Prelude.{◌≡◌, ℕ};
ghost use Rattle.model.specs.Types.{Scalar, Ty};
ghost use Rattle.rules.specs.Scalars.{compatible_with_boxes};
ghost use Rattle.known.specs.Known.{ScalarAt, TypeAt, HasScalar, HasType};
ghost use Rattle.scalar.specs.Calls.{InnerIs, compatible_contents};

use crate::Inner;
use kind_table::compatible;
use known::{View, kind_at, look, scalar_at, shape_at};
use limits::Kind;
use shape::{compatible_with, is_yes};

#[cycle(compatibility)]
pub fn compatible_boxes(a: &[u8], i: usize, b: &[u8], j: usize, depth: u64) -> bool
    requires { HasScalar a.now i depth × HasScalar b.now j depth }
    ensures { (k l : Scalar) → ScalarAt a.now i depth k → ScalarAt b.now j depth l → result ≡ compatible_with_boxes k l }
{
    match inner_at(a, i) {
        Inner::Content(content) => match inner_at(b, j) {
            Inner::Content(other) => compatible_contents(a, content, b, other, depth),
            Inner::Kind(kind) => compatible(Kind::Box, kind),
        },
        Inner::Kind(kind) => compatible(kind, kind_at(b, j)),
    }
}

// Two types: their scalars, then their shapes.
#[cycle(compatibility)]
pub fn compatible_contents(a: &[u8], i: usize, b: &[u8], j: usize, depth: u64) -> bool
    requires { HasType a.now i depth × HasType b.now j depth }
    ensures { (t u : Ty) → TypeAt a.now i depth t → TypeAt b.now j depth u → result ≡ compatible_contents t u }
{
    compatible_boxes(a, scalar_at(a, i), b, scalar_at(b, j), depth - 1)
        && is_yes(compatible_with(shape_at(a, i), shape_at(b, j)))
}

// What an All box holds, or what kind another scalar is.
pub fn inner_at(s: &[u8], at: usize) -> Inner
    requires { (d : ℕ) × HasScalar s.now at d }
    ensures { (d : ℕ) (k : Scalar) → ScalarAt s.now at d k → InnerIs s.now d k result }
{
    match look(s, at) {
        View::Plain { kind, end: _ } => Inner::Kind(kind),
        View::BoxAny { end: _ } => Inner::Kind(Kind::Box),
        View::BoxAll { content } => Inner::Content(content),
        View::BoxDef {
            name: _,
            named: _,
            fields: _,
            count: _,
        } => Inner::Kind(Kind::Box),
    }
}

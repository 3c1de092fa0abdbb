// The order of two types in their bytes: scalar first, then shape, though the shape stands first; box contents with a falling
// depth. Where two are the same the answer has the place after the first, and the second ends as many bytes after its start.
ghost use Rattle.std.specs.Prelude.{◌≡◌, ◌+◌, length};
ghost use Rattle.model.specs.Types.{Scalar, Ty};
ghost use Rattle.format.specs.Records.{write_scalar, write_ty};
ghost use Rattle.format.specs.Outcome.{mapped};
ghost use Rattle.limits.specs.Answers.{told};
ghost use Rattle.limits.specs.Codes.{code_for};
ghost use Rattle.rules.specs.Order.{cmp_kind, cmp_scalar, compare};
ghost use Rattle.known.specs.Known.{ScalarAt, TypeAt, HasScalar, HasType, HasFields};
ghost use Rattle.known.specs.Whole.{of_types};
ghost use Rattle.shape.specs.Answers.{order_of};
ghost use Rattle.order.specs.Answers.{ranking_of, FieldsRanked};

use crate::Ranking;
use crate::kinds::kind_place;
use crate::names::cmp_names;
use crate::shapes::cmp_shape;
use known::{View, kind_at, look, scalar_at, shape_at};
use limits::refusal::Refusal;
use limits::{Kind, MAX_DEPTH};
use record::read_two;
use std::cmp::Ordering;

#[tactic(auto, using(crate::proofs::TypeLaws::ways_out))]
pub fn compare(a: &[u8], b: &[u8]) -> Result<Ordering, Refusal>
    ensures { mapped order_of (told result) ≡ of_types compare a.now b.now }
{
    read_two(a, b)?;
    match compare_types(a, 0, b, 0, MAX_DEPTH) {
        Ranking::Less => Ok(Ordering::Less),
        Ranking::Same(_) => Ok(Ordering::Equal),
        Ranking::More => Ok(Ordering::Greater),
    }
}

// Two types inside bytes.
#[cycle(comparing)]
pub fn compare_types(a: &[u8], i: usize, b: &[u8], j: usize, depth: u64) -> Ranking
    requires { HasType a.now i depth × HasType b.now j depth }
    ensures { (t u : Ty) → TypeAt a.now i depth t → TypeAt b.now j depth u → result ≡ ranking_of (compare t u) (i + length (write_ty t)) }
{
    match compare_scalars(a, scalar_at(a, i), b, scalar_at(b, j), depth - 1) {
        Ranking::Less => Ranking::Less,
        Ranking::Same(next) => match cmp_shape(shape_at(a, i), shape_at(b, j)) {
            Ordering::Less => Ranking::Less,
            Ordering::Equal => Ranking::Same(next),
            Ordering::Greater => Ranking::More,
        },
        Ranking::More => Ranking::More,
    }
}

// By kinds; of two boxes box Any, All, Def; then their contents.
#[cycle(comparing)]
fn compare_scalars(a: &[u8], i: usize, b: &[u8], j: usize, depth: u64) -> Ranking
    requires { HasScalar a.now i depth × HasScalar b.now j depth }
    ensures { (k l : Scalar) → ScalarAt a.now i depth k → ScalarAt b.now j depth l → result ≡ ranking_of (cmp_scalar k l) (i + length (write_scalar k)) }
{
    match look(a, i) {
        View::Plain { kind, end } => rank_kinds(kind, kind_at(b, j), end),
        View::BoxAny { end } => match look(b, j) {
            View::Plain { kind, end: _ } => rank_kinds(Kind::Box, kind, end),
            View::BoxAny { end: _ } => Ranking::Same(end),
            View::BoxAll { content: _ } => Ranking::Less,
            View::BoxDef {
                name: _,
                named: _,
                fields: _,
                count: _,
            } => Ranking::Less,
        },
        View::BoxAll { content } => match look(b, j) {
            View::Plain { kind, end: _ } => rank_kinds(Kind::Box, kind, content),
            View::BoxAny { end: _ } => Ranking::More,
            View::BoxAll { content: other } => compare_types(a, content, b, other, depth),
            View::BoxDef {
                name: _,
                named: _,
                fields: _,
                count: _,
            } => Ranking::Less,
        },
        View::BoxDef {
            name,
            named: _,
            fields,
            count,
        } => match look(b, j) {
            View::Plain { kind, end: _ } => rank_kinds(Kind::Box, kind, fields),
            View::BoxAny { end: _ } => Ranking::More,
            View::BoxAll { content: _ } => Ranking::More,
            View::BoxDef {
                name: title,
                named: _,
                fields: other,
                count: others,
            } => match cmp_names(a, name, b, title) {
                Ordering::Less => Ranking::Less,
                Ordering::Equal => compare_fields(a, fields, count, b, other, others, depth),
                Ordering::Greater => Ranking::More,
            },
        },
    }
}

// Two kinds by their places in the order, and the place after the first.
fn rank_kinds(k: Kind, l: Kind, end: usize) -> Ranking
    ensures { result ≡ ranking_of (cmp_kind (code_for k) (code_for l)) end }
{
    match kind_place(k.code() as u64).cmp(&kind_place(l.code() as u64)) {
        Ordering::Less => Ranking::Less,
        Ordering::Equal => Ranking::Same(end),
        Ordering::Greater => Ranking::More,
    }
}

// So many fields from their first on.
#[cycle(comparing)]
#[tactic(auto, using(crate::proofs::TypeLaws::walking))]
fn compare_fields(
    a: &[u8],
    start: usize,
    count: u64,
    b: &[u8],
    other: usize,
    number: u64,
    depth: u64,
) -> Ranking
    requires { HasFields a.now start depth count × HasFields b.now other depth number }
    ensures { FieldsRanked a.now start count b.now other number depth result }
{
    let mut i = start;
    let mut j = other;
    for k in 0..count {
        if k == number {
            return Ranking::More;
        }
        match compare_types(a, i, b, j, depth) {
            Ranking::Less => {
                return Ranking::Less;
            }
            Ranking::Same(next) => {
                j += next - i;
                i = next;
            }
            Ranking::More => {
                return Ranking::More;
            }
        }
    }
    if count < number {
        return Ranking::Less;
    }
    Ranking::Same(i)
}

// The join of two types: the join of their shapes with the union of their scalars.
#![tactic(auto)]

ghost use Rattle.std.specs.Prelude.{◌≡◌};
ghost use Rattle.model.specs.Types.{ty};
ghost use Rattle.format.specs.Records.{write_ty};
ghost use Rattle.format.specs.Outcome.{accepted, deliver, both, lone};
ghost use Rattle.lent.specs.Written.{delivered};
ghost use Rattle.record.specs.Answers.{nothings, shape_for};
ghost use Rattle.rules.specs.Scalars as rules;
ghost use Rattle.rules.specs.KindTable.{union_number};
ghost use Rattle.known.specs.Whole.{of_scalars};
ghost use Rattle.kind_table.specs.Union.{united_number};
ghost use Rattle.join.specs.Calls.{join_call};

use kind_table::union;
use known::{closed_at, opening_at, shape_at};
use limits::Kind;
use limits::records::BOX_ANY_SCALAR;
use limits::refusal::Refusal;
use record::{DynShape, read_two};
use scalar::{United, kind_of, unite};
use shape::{join as join_shapes, join_dims};
use ty::write_parts;
use writer::{write_closed, write_plain};

#[tactic(auto, using(lent::specs::Delivers::deliver_refusal))]
pub fn join(a: &[u8], b: &[u8], res: &mut [u8]) -> Result<usize, Refusal>
    ensures { delivered result res.new ≡ deliver (join_call a.now b.now) res.old }
{
    read_two(a, b)?;
    join_known(a, b, &mut *res)
}

// The same of bytes that are known to be types.
#[tactic(auto, using(crate::proofs::Laws::both_known))]
pub fn join_known(a: &[u8], b: &[u8], res: &mut [u8]) -> Result<usize, Refusal>
    requires { both nothings (lone a.now) (lone b.now) ≡ accepted 0 }
    ensures { delivered result res.new ≡ deliver (join_call a.now b.now) res.old }
{
    // Where one of two shapes is closed, so is their join: no closing list is made, and a kind is written behind the opening sizes at once.
    if closed_at(a, 0) || closed_at(b, 0) {
        if let Some(kind) = union_kind(a, b) {
            return write_closed(
                join_dims(opening_at(a, 0), opening_at(b, 0)),
                kind.code(),
                &mut *res,
            );
        }
    }
    let shape = join_shapes(shape_at(a, 0), shape_at(b, 0));
    write_union(shape, a, b, &mut *res)
}

// The kind of the union of two types' scalars, or none where the boxes' contents decide.
#[tactic(auto, using(crate::proofs::Laws::union_known))]
pub fn union_kind(a: &[u8], b: &[u8]) -> Option<Kind>
    requires { both nothings (lone a.now) (lone b.now) ≡ accepted 0 }
    ensures { of_scalars union_number a.now b.now ≡ accepted (united_number result) }
{
    union(kind_of(a), kind_of(b))
}

// A shape with the union of two types' scalars: the kind that the table says; or, of two boxes, one of them as it stands or a box Any.
#[tactic(auto, using(crate::proofs::Laws::united), unfolding(format::specs::Records::code, format::specs::Records::write_scalar))]
pub fn write_union(shape: DynShape, a: &[u8], b: &[u8], res: &mut [u8]) -> Result<usize, Refusal>
    requires { both nothings (lone a.now) (lone b.now) ≡ accepted 0 }
    ensures { delivered result res.new ≡ deliver (of_scalars (λ k l. write_ty (ty (shape_for shape) (rules.union k l))) a.now b.now) res.old }
{
    match unite(a, b) {
        United::Kind(kind) => write_plain(shape, kind.code(), &mut *res),
        United::First(i) => write_parts(shape, b"", &a[i..], &mut *res),
        United::Second(j) => write_parts(shape, b"", &b[j..], &mut *res),
        United::BoxAny => write_parts(shape, b"", &BOX_ANY_SCALAR, &mut *res),
    }
}

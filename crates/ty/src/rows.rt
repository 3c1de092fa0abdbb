// The rows of a type.
ghost use Rattle.std.specs.Prelude.{◌≡◌, ◌++◌, ◌≤◌, length};
ghost use Rattle.format.specs.Records.{box_start, write_shape, write_ty};
ghost use Rattle.format.specs.Outcome.{accepted, deliver, mapped, lone};
ghost use Rattle.lent.specs.Written.{delivered};
ghost use Rattle.record.specs.Answers.{shape_for, nothing};
ghost use Rattle.rules.specs.Types.{row_by, into_row, into_first_row, into_last_row, into_nth_row};
ghost use Rattle.ty.specs.Parts.{LoneDef};
ghost use Rattle.ty.specs.Rows.{chosen, index_of, reshaped, row_of_def};

use crate::parts::{Part, find_field};
use crate::whole::{whole_scalar, whole_shape};
use known::{View, closed_at, kind_at, opening_at, scalar_at};
use lent::lay;
use limits::Kind;
use limits::records::{ANY_TYPE, BOX_ALL_START};
use limits::refusal::{Reason, Refusal};
use record::{DynShape, read_lone};
use shape::{into_row as shape_row, rank, rest_dims};
use writer::{put_shape, shape_length, write_closed};

// The row of a type: its shape loses a size, and at rank 1 a Def's row is a box with its first field.
pub fn into_row(ty: &[u8], res: &mut [u8]) -> Result<usize, Refusal>
    ensures { delivered result res.new ≡ deliver (mapped (λ t. write_ty (into_row t)) (lone ty.now)) res.old }
{
    row_by(ty, Which::First, &mut *res)
}

pub fn into_first_row(ty: &[u8], res: &mut [u8]) -> Result<usize, Refusal>
    ensures { delivered result res.new ≡ deliver (mapped (λ t. write_ty (into_first_row t)) (lone ty.now)) res.old }
{
    row_by(ty, Which::First, &mut *res)
}

pub fn into_last_row(ty: &[u8], res: &mut [u8]) -> Result<usize, Refusal>
    ensures { delivered result res.new ≡ deliver (mapped (λ t. write_ty (into_last_row t)) (lone ty.now)) res.old }
{
    row_by(ty, Which::Last, &mut *res)
}

// Row n, counted from 0: where a Def has no such field, its first again.
pub fn into_nth_row(ty: &[u8], n: u64, res: &mut [u8]) -> Result<usize, Refusal>
    ensures { delivered result res.new ≡ deliver (mapped (λ t. write_ty (into_nth_row n t)) (lone ty.now)) res.old }
{
    row_by(ty, Which::Nth(n), &mut *res)
}

// Which field of a Def its row is made of.
#[derive(Clone, Copy)]
pub enum Which {
    First,
    Last,
    Nth(u64),
}

// All four rows: the row's shape, and at rank 1 a Def's field in a box; every other scalar stays.
#[tactic(auto, using(lent::specs::Delivers::deliver_refusal))]
fn row_by(ty: &[u8], which: Which, res: &mut [u8]) -> Result<usize, Refusal>
    ensures { delivered result res.new ≡ deliver (mapped (λ t. write_ty (row_by (chosen which) t)) (lone ty.now)) res.old }
{
    read_lone(ty)?;
    row_known(ty, which, &mut *res)
}

// The same of bytes that are known to be a type.
#[tactic(auto, using(crate::proofs::PartLaws::type_known, crate::proofs::PartLaws::scalar_known))]
pub fn row_known(ty: &[u8], which: Which, res: &mut [u8]) -> Result<usize, Refusal>
    requires { mapped nothing (lone ty.now) ≡ accepted 0 }
    ensures { delivered result res.new ≡ deliver (mapped (λ t. write_ty (row_by (chosen which) t)) (lone ty.now)) res.old }
{
    // A closed shape with a plain scalar, as most types have, keeps its kind: no closing list is made, and the row is written at once.
    if closed_at(ty, 0) {
        let kind = kind_at(ty, scalar_at(ty, 0));
        if kind != Kind::Box {
            return write_closed(rest_dims(opening_at(ty, 0)), kind.code(), &mut *res);
        }
    }
    row_any(ty, which, &mut *res)
}

// The row of any type, by its whole shape and a look at its scalar.
#[tactic(auto, unfolding(rules::specs::Types::row_by, rules::specs::Types::row_scalar, crate::specs::Rows::reshaped, crate::specs::Rows::row_of_def))]
fn row_any(ty: &[u8], which: Which, res: &mut [u8]) -> Result<usize, Refusal>
    requires { mapped nothing (lone ty.now) ≡ accepted 0 }
    ensures { delivered result res.new ≡ deliver (mapped (λ t. write_ty (row_by (chosen which) t)) (lone ty.now)) res.old }
{
    let shape = whole_shape(ty);
    let row = shape_row(shape);
    if rank(shape) != 1 {
        return keep_scalar(ty, row, &mut *res);
    }
    match whole_scalar(ty) {
        View::BoxDef {
            name: _,
            named: _,
            fields,
            count,
        } => take_field(ty, row, fields, count, which, &mut *res),
        _ => keep_scalar(ty, row, &mut *res),
    }
}

// The type's own scalar under the row's shape.
#[tactic(auto, using(crate::proofs::RowLaws::kept))]
fn keep_scalar(ty: &[u8], row: DynShape, res: &mut [u8]) -> Result<usize, Refusal>
    requires { mapped nothing (lone ty.now) ≡ accepted 0 }
    ensures { delivered result res.new ≡ deliver (mapped (reshaped (shape_for row)) (lone ty.now)) res.old }
{
    let start = scalar_at(ty, 0);
    write_parts(row, b"", &ty[start..], &mut *res)
}

// A Def's field in a box under the row's shape, [..] of Any where it has none.
#[tactic(auto, using(crate::proofs::ContentLaws::any_written, crate::proofs::RowLaws::chosen_is, crate::proofs::RowLaws::box_bytes), unfolding(crate::specs::Rows::row_of_def, rules::specs::Types::field_at))]
fn take_field(
    ty: &[u8],
    row: DynShape,
    start: usize,
    count: u64,
    which: Which,
    res: &mut [u8],
) -> Result<usize, Refusal>
    requires { LoneDef ty.now start count }
    ensures { delivered result res.new ≡ deliver (mapped (row_of_def (shape_for row) which) (lone ty.now)) res.old }
{
    let n = index_of(which, count);
    match find_field(ty, start, count, n) {
        Some(Part { start: at, length }) => {
            write_parts(row, &BOX_ALL_START, &ty[at..at + length], &mut *res)
        }
        None => write_parts(row, &BOX_ALL_START, &ANY_TYPE, &mut *res),
    }
}

// The index of the field among so many: the first again where n is too large.
#[tactic(auto, unfolding(crate::specs::Rows::index_of))]
fn index_of(which: Which, count: u64) -> u64
    ensures { result ≡ index_of which count }
{
    match which {
        Which::First => 0,
        Which::Last => count.saturating_sub(1),
        Which::Nth(n) if n < count => n,
        Which::Nth(_) => 0,
    }
}

// A shape's record, then the start of a scalar's, if any, and the rest of it.
#[tactic(auto, using(crate::proofs::RowLaws::parted))]
pub fn write_parts(
    shape: DynShape,
    head: &[u8],
    tail: &[u8],
    res: &mut [u8],
) -> Result<usize, Refusal>
    requires { length head.now ≤ length (box_start 1) }
    ensures { delivered result res.new ≡ deliver (accepted (write_shape (shape_for shape) ++ (head.now ++ tail.now))) res.old }
{
    let middle = shape_length(shape);
    let last = middle + head.len();
    let size = last + tail.len();
    if res.len() < size {
        return Err(Refusal(Reason::TooShort, 0));
    }
    put_shape(&mut *res, 0, shape);
    lay(head, &mut *res, middle);
    lay(tail, &mut *res, last);
    Ok(size)
}

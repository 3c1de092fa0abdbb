// Writing records: a shape by value, a plain scalar, the start of a box, and the shape and the scalar of a whole type.
#![tactic(auto)]

ghost use Rattle.std.specs.Prelude.{◌≡◌, [], ◌∷◌, ◌++◌, ◌+◌, ◌*◌, ◌≤◌, length};
ghost use Rattle.format.specs.Suffices.{shape_bytes};
ghost use Rattle.model.specs.Limits.{max_sizes};
ghost use Rattle.format.specs.Reader.{bytes_of};
ghost use Rattle.format.specs.Records.{shape_mark, mark_bytes, box_start, count_of, write_dims, write_shape};
ghost use Rattle.format.specs.Outcome.{accepted, deliver, mapped, lone, shape_record, scalar_record};
ghost use Rattle.lent.specs.Over.{over};
ghost use Rattle.lent.specs.Written.{delivered};
ghost use Rattle.record.specs.Answers.{dims_of, closing_for, shape_for};
ghost use Rattle.writer.specs.Kinds.{kind_record, closed_record};

use known::{scalar_at, shape_at};
use lent::hand_over;
use limits::refusal::{Reason, Refusal};
use limits::{ABSENT, Kind, MAX_SIZES, marks};
use record::{Dims, DynShape, read_lone};

// Eight bytes, low byte first.
#[tactic(auto, using(crate::proofs::Laws::eight_stores), unfolding(format::specs::Reader::bytes_of))]
pub fn put_number(out: &mut [u8], at: usize, n: u64)
    requires { at + 8 ≤ length out.old }
    ensures { out.new ≡ over out.old at (bytes_of 8 n) }
{
    let a = n / 256;
    let b = a / 256;
    let c = b / 256;
    let d = c / 256;
    let e = d / 256;
    let f = e / 256;
    let g = f / 256;
    out[at] = (n % 256) as u8;
    out[at + 1] = (a % 256) as u8;
    out[at + 2] = (b % 256) as u8;
    out[at + 3] = (c % 256) as u8;
    out[at + 4] = (d % 256) as u8;
    out[at + 5] = (e % 256) as u8;
    out[at + 6] = (f % 256) as u8;
    out[at + 7] = (g % 256) as u8;
}

// How many sizes a list has: no more than the array holds.
pub fn size_count(d: Dims) -> usize
    ensures { (result ≡ length (dims_of d)) × (result ≤ max_sizes) }
{
    d.count.min(MAX_SIZES)
}

#[tactic(auto, using(crate::proofs::Laws::lay_more, crate::proofs::Laws::lay_all))]
fn put_dims(out: &mut [u8], start: usize, d: Dims) -> usize
    requires { start + 8 * length (dims_of d) ≤ length out.old }
    ensures { (result ≡ start + 8 * length (dims_of d)) × (out.new ≡ over out.old start (write_dims (dims_of d))) }
{
    let n = size_count(d);
    for i in 0..n {
        put_number(&mut *out, start + 8 * i, d.sizes[i]);
    }
    start + 8 * n
}

// The same over all eight places, so that the compiler unrolls the loop: a list that was just made then goes from registers to the bytes, and
// need not stand in memory. For one that comes within a shape, and stands there, the longer code is slower.
#[tactic(auto, using(crate::proofs::Laws::lay_more, crate::proofs::Laws::lay_all, crate::proofs::Laws::lay_past))]
fn put_places(out: &mut [u8], start: usize, d: Dims) -> usize
    requires { start + 8 * length (dims_of d) ≤ length out.old }
    ensures { (result ≡ start + 8 * length (dims_of d)) × (out.new ≡ over out.old start (write_dims (dims_of d))) }
{
    let n = size_count(d);
    for i in 0..MAX_SIZES {
        if i < n {
            put_number(&mut *out, start + 8 * i, d.sizes[i]);
        }
    }
    start + 8 * n
}

// The count byte of a shape's closing sizes.
fn closing_count(shape: DynShape) -> u8
    ensures { result ≡ count_of (closing_for shape) }
{
    if shape.closed {
        return ABSENT as u8;
    }
    let suffix = shape.suffix;
    size_count(suffix) as u8
}

// The length of a shape's record.
#[tactic(auto, using(crate::proofs::Records::length_record))]
pub fn shape_length(shape: DynShape) -> usize
    ensures { (result ≡ length (write_shape (shape_for shape))) × (result ≤ shape_bytes) }
{
    let dims = shape.dims;
    let start = 4 + 8 * size_count(dims);
    if shape.closed {
        return start;
    }
    let suffix = shape.suffix;
    start + 8 * size_count(suffix)
}

// A shape's mark and its counts, from `at` on.
#[tactic(auto, using(crate::proofs::Records::four_stores))]
pub fn put_head(out: &mut [u8], at: usize, opening: u8, closing: u8)
    requires { at + 4 ≤ length out.old }
    ensures { out.new ≡ over out.old at (mark_bytes shape_mark ++ (opening ∷ closing ∷ [])) }
{
    out[at] = marks::SHAPE.first;
    out[at + 1] = marks::SHAPE.second;
    out[at + 2] = opening;
    out[at + 3] = closing;
}

// A shape's record, from `at` on. Answers the place after it.
#[tactic(auto, using(crate::proofs::Records::length_record, crate::proofs::Records::shape_closed, crate::proofs::Records::shape_open))]
pub fn put_shape(out: &mut [u8], at: usize, shape: DynShape) -> usize
    requires { at + length (write_shape (shape_for shape)) ≤ length out.old }
    ensures { (result ≡ at + length (write_shape (shape_for shape))) × (out.new ≡ over out.old at (write_shape (shape_for shape))) }
{
    let dims = shape.dims;
    let closing = closing_count(shape);
    put_head(&mut *out, at, size_count(dims) as u8, closing);
    let next = put_dims(&mut *out, at + 4, dims);
    if shape.closed {
        return next;
    }
    let suffix = shape.suffix;
    put_dims(&mut *out, next, suffix)
}

// Bytes of a plain scalar's record.
const PLAIN_BYTES: usize = 3;

// A plain scalar's record, by the code of its kind, from `at` on. Answers the place after it.
#[tactic(auto, using(crate::proofs::Records::three_stores))]
pub fn put_plain(out: &mut [u8], at: usize, kind: u8) -> usize
    requires { at + 3 ≤ length out.old }
    ensures { (result ≡ at + 3) × (out.new ≡ over out.old at (kind_record kind)) }
{
    out[at] = marks::SCALAR.first;
    out[at + 1] = marks::SCALAR.second;
    out[at + 2] = kind;
    at + PLAIN_BYTES
}

// A type whose shape is closed and whose scalar is plain, from `at` on. Answers the place after it.
#[tactic(auto, using(crate::proofs::PlainLaws::length_closed, crate::proofs::PlainLaws::closed_type))]
pub fn put_closed(out: &mut [u8], at: usize, dims: Dims, kind: u8) -> usize
    requires { at + length (closed_record (dims_of dims) kind) ≤ length out.old }
    ensures { (result ≡ at + length (closed_record (dims_of dims) kind)) × (out.new ≡ over out.old at (closed_record (dims_of dims) kind)) }
{
    put_head(&mut *out, at, size_count(dims) as u8, ABSENT as u8);
    let next = put_places(&mut *out, at + 4, dims);
    put_plain(&mut *out, next, kind)
}

// A box's record up to its form, from `at` on. Answers the place after it.
#[tactic(auto, using(crate::proofs::Records::six_stores))]
pub fn put_box(out: &mut [u8], at: usize, form: u8) -> usize
    requires { at + length (box_start form) ≤ length out.old }
    ensures { (result ≡ at + length (box_start form)) × (out.new ≡ over out.old at (box_start form)) }
{
    out[at] = marks::SCALAR.first;
    out[at + 1] = marks::SCALAR.second;
    out[at + 2] = Kind::Box.code();
    out[at + 3] = marks::BOX.first;
    out[at + 4] = marks::BOX.second;
    out[at + 5] = form;
    at + 6
}

// A shape's record, to the front of the result.
#[tactic(auto, using(lent::specs::Delivers::deliver_bytes, lent::specs::Delivers::deliver_nothing))]
pub fn write_shape(shape: DynShape, res: &mut [u8]) -> Result<usize, Refusal>
    ensures { delivered result res.new ≡ deliver (accepted (write_shape (shape_for shape))) res.old }
{
    if res.len() < shape_length(shape) {
        return Err(Refusal(Reason::TooShort, 0));
    }
    Ok(put_shape(&mut *res, 0, shape))
}

// A plain scalar's record, to the front of the result.
#[tactic(auto, using(lent::specs::Delivers::deliver_bytes, lent::specs::Delivers::deliver_nothing))]
pub fn write_kind(kind: u8, res: &mut [u8]) -> Result<usize, Refusal>
    ensures { delivered result res.new ≡ deliver (accepted (kind_record kind)) res.old }
{
    if res.len() < PLAIN_BYTES {
        return Err(Refusal(Reason::TooShort, 0));
    }
    Ok(put_plain(&mut *res, 0, kind))
}

// A type whose scalar is plain, to the front of the result.
#[tactic(auto, using(lent::specs::Delivers::deliver_bytes, lent::specs::Delivers::deliver_nothing, crate::proofs::PlainLaws::length_plain, crate::proofs::PlainLaws::plain_type))]
pub fn write_plain(shape: DynShape, kind: u8, res: &mut [u8]) -> Result<usize, Refusal>
    ensures { delivered result res.new ≡ deliver (accepted (write_shape (shape_for shape) ++ kind_record kind)) res.old }
{
    let n = shape_length(shape);
    if res.len() < n + PLAIN_BYTES {
        return Err(Refusal(Reason::TooShort, 0));
    }
    put_shape(&mut *res, 0, shape);
    Ok(put_plain(&mut *res, n, kind))
}

// A type whose shape is closed and whose scalar is plain, to the front of the result: it is written at once, and no closing list is made for it.
#[tactic(auto, using(lent::specs::Delivers::deliver_bytes, lent::specs::Delivers::deliver_nothing, crate::proofs::PlainLaws::length_closed))]
pub fn write_closed(dims: Dims, kind: u8, res: &mut [u8]) -> Result<usize, Refusal>
    ensures { delivered result res.new ≡ deliver (accepted (closed_record (dims_of dims) kind)) res.old }
{
    if res.len() < 4 + 8 * size_count(dims) + PLAIN_BYTES {
        return Err(Refusal(Reason::TooShort, 0));
    }
    Ok(put_closed(&mut *res, 0, dims, kind))
}

// The record of a type's shape.
#[tactic(auto, using(record::proofs::LoneLaws::delivered_reading))]
pub fn shape_record(ty: &[u8], res: &mut [u8]) -> Result<usize, Refusal>
    ensures { delivered result res.new ≡ deliver (mapped shape_record (lone ty.now)) res.old }
{
    read_lone(ty)?;
    write_shape(shape_at(ty, 0), &mut *res)
}

// The record of a type's scalar.
#[tactic(auto, using(record::proofs::LoneLaws::delivered_reading))]
pub fn scalar_record(ty: &[u8], res: &mut [u8]) -> Result<usize, Refusal>
    ensures { delivered result res.new ≡ deliver (mapped scalar_record (lone ty.now)) res.old }
{
    read_lone(ty)?;
    hand_over(&ty[scalar_at(ty, 0)..], &mut *res)
}

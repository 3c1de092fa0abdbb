// Types: a shape's record and a scalar's, whose box may hold types again, with a falling depth. In each function `left` is
// how many types may still stand here, and the value answered is how many may still follow.
ghost use Rattle.std.specs.Prelude.{◌≡◌, ◌-◌};
ghost use Rattle.model.specs.Types.{types, inside, among};
ghost use Rattle.format.specs.Reader.{map_read};
ghost use Rattle.format.specs.Records.{read_fields, def_from, box_from, scalar_from, read_ty};
ghost use Rattle.record.specs.Answers.{reading_of};

use crate::bytes::{list_count, read_byte, read_count, read_mark, read_name, read_optional};
use crate::shapes::read_shape;
use limits::refusal::{Reason, Refusal};
use limits::{Form, Kind, MAX_FIELDS, MAX_NAME, marks};
use std::convert::TryFrom;

// A type at most `depth` deep. One more of either is refused before its bytes are looked at.
#[tactic(auto, using(crate::proofs::TypeLaws::type_deep, crate::proofs::TypeLaws::type_many, crate::proofs::TypeLaws::type_passed))]
#[cycle(reading)]
pub fn read_type(s: &[u8], at: usize, depth: u64, left: u64) -> Result<(u64, usize), Refusal>
    ensures { reading_of result ≡ map_read (λ t. left - types t) (read_ty s.now depth left at) }
{
    if depth == 0 || left == 0 {
        return Err(Refusal(Reason::TooMany, at));
    }
    let scalar = read_shape(s, at)?;
    read_scalar(s, scalar, depth - 1, left - 1)
}

// A scalar, whose contents are at most `depth` deep.
#[tactic(auto, using(crate::proofs::TypeLaws::scalar_passed))]
#[cycle(reading)]
fn read_scalar(s: &[u8], at: usize, depth: u64, left: u64) -> Result<(u64, usize), Refusal>
    ensures { reading_of result ≡ map_read (λ k. left - inside k) (scalar_from s.now (read_ty s.now depth) left at at) }
{
    let coded = read_mark(s, at, at, marks::SCALAR)?;
    let (code, next) = read_byte(s, at, coded)?;
    match Kind::try_from(code) {
        Err(reason) => Err(Refusal(reason, at)),
        Ok(Kind::Box) => read_box(s, next, depth, left),
        Ok(_) => Ok((left, next)),
    }
}

#[tactic(auto, using(crate::proofs::TypeLaws::box_passed))]
#[cycle(reading)]
fn read_box(s: &[u8], at: usize, depth: u64, left: u64) -> Result<(u64, usize), Refusal>
    ensures { reading_of result ≡ map_read (λ k. left - inside k) (box_from s.now (read_ty s.now depth) left at at) }
{
    let formed = read_mark(s, at, at, marks::BOX)?;
    let (code, next) = read_byte(s, at, formed)?;
    match Form::try_from(code) {
        Err(reason) => Err(Refusal(reason, at)),
        Ok(Form::Any) => Ok((left, next)),
        Ok(Form::All) => read_type(s, next, depth, left),
        Ok(Form::Def) => read_def(s, at, next, depth, left),
    }
}

// The rest of a Def, whose box begins at `place`: its name and its fields.
#[tactic(auto, using(crate::proofs::TypeLaws::def_passed))]
#[cycle(reading)]
fn read_def(
    s: &[u8],
    place: usize,
    at: usize,
    depth: u64,
    left: u64,
) -> Result<(u64, usize), Refusal>
    ensures { reading_of result ≡ map_read (λ k. left - inside k) (def_from s.now (read_ty s.now depth) left place at) }
{
    let (length, start) = read_optional(s, place, at, MAX_NAME)?;
    let counted = read_name(s, place, start, list_count(length))?;
    let (count, fields) = read_count(s, place, counted, MAX_FIELDS)?;
    read_fields(s, fields, depth, left, count)
}

#[tactic(auto, using(crate::proofs::TypeLaws::fields_step, crate::proofs::TypeLaws::fields_end))]
#[cycle(reading)]
fn read_fields(
    s: &[u8],
    start: usize,
    depth: u64,
    left: u64,
    count: u64,
) -> Result<(u64, usize), Refusal>
    ensures { reading_of result ≡ map_read (λ f. left - among f) (read_fields s.now (read_ty s.now depth) count left start) }
{
    let mut at = start;
    let mut still = left;
    for _ in 0..count {
        let (rest, next) = read_type(s, at, depth, still)?;
        still = rest;
        at = next;
    }
    Ok((still, at))
}

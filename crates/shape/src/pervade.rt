// The pervading of two shapes by value.
ghost use Rattle.std.specs.Prelude.{◌||◌, cond, ◌≡◌};
ghost use Rattle.std.proofs.Math.Option.{none, some, map};
ghost use Rattle.model.specs.Types.{shape};
ghost use Rattle.format.specs.Records.{dim_of};
ghost use Rattle.record.specs.Answers.{dims_of, closing_for, shape_for};
ghost use Rattle.rules.specs.Pervade.{filled, against_absent, together, pervade_at, walk, pervade_closing};
ghost use Rattle.rules.specs.PervadeInSheets as rules;
ghost use Rattle.rules.specs.PervadeInSheets.{other_than_one, may_grow};
ghost use Rattle.shape.specs.Answers.{pervade_as, any_grows, spot_of, rule_for, dims_pervaded_of, closed_pervaded_of, shape_pervaded_of};

use crate::dims::longer;
use crate::shapes::of_parts;
use crate::sizes::cmp;
use crate::{Filling, Pervading};
use limits::{MAX_SIZES, UNKNOWN};
use record::{Dims, DynShape, no_dims};
use std::cmp::Ordering;
use writer::size_count;

// Asked for the separate call's pervading it is the Rust's function of this name; both take the one walk.
#[tactic(auto, using(crate::proofs::PervadeLaws::pervaded_stops, crate::proofs::PervadeLaws::pervaded_goes))]
pub fn pervade_dyn_shapes(
    a: DynShape,
    b: DynShape,
    a_fill: bool,
    b_fill: bool,
    pervading: Pervading,
) -> Option<DynShape>
    ensures { shape_pervaded_of result ≡ pervade_as pervading a_fill b_fill (shape_for a) (shape_for b) }
{
    let filling = Filling {
        a_fill,
        b_fill,
        a_open: !a.closed,
        b_open: !b.closed,
        grows: any_grows(pervading, a_fill, b_fill),
    };
    let Ok(dims) = pervade_dims(a.dims, b.dims, filling) else {
        return None;
    };
    Some(pervade_closing(dims, a, b))
}

// The opening sizes of two closed shapes: nothing else is to be pervaded of them, so no closing list is carried about.
#[tactic(auto, using(crate::proofs::PervadeLaws::pervaded_closed))]
pub fn pervade_closed(
    a: Dims,
    b: Dims,
    a_fill: bool,
    b_fill: bool,
    pervading: Pervading,
) -> Option<Dims>
    ensures { closed_pervaded_of result ≡ pervade_as pervading a_fill b_fill (shape (dims_of a) none) (shape (dims_of b) none) }
{
    let filling = Filling {
        a_fill,
        b_fill,
        a_open: false,
        b_open: false,
        grows: any_grows(pervading, a_fill, b_fill),
    };
    pervade_dims(a, b, filling).ok()
}

// Whether any size may grow: in sheets, where a side is filled.
fn any_grows(pervading: Pervading, a_fill: bool, b_fill: bool) -> bool
    ensures { result ≡ any_grows pervading a_fill b_fill }
{
    match pervading {
        Pervading::Separate => false,
        Pervading::InSheets => a_fill || b_fill,
    }
}

// An absent closing list yields to the other's, an empty one to a named one only; two named ones give an empty one.
#[tactic(auto, using(crate::proofs::PervadeLaws::closing))]
fn pervade_closing(dims: Dims, a: DynShape, b: DynShape) -> DynShape
    ensures { shape_for result ≡ shape (dims_of dims) (pervade_closing (closing_for a) (closing_for b)) }
{
    if a.closed {
        return of_parts(dims, b.suffix, b.closed);
    }
    if b.closed {
        return of_parts(dims, a.suffix, false);
    }
    if size_count(a.suffix) == 0 {
        return of_parts(dims, b.suffix, false);
    }
    if size_count(b.suffix) == 0 {
        return of_parts(dims, a.suffix, false);
    }
    of_parts(dims, no_dims(), false)
}

// The walk stops at the first index that refuses. It looks at the sizes itself: a callee that takes a list is given a copy of it.
#[tactic(auto, using(crate::proofs::PervadeLaws::walking))]
fn pervade_dims(a: Dims, b: Dims, filling: Filling) -> Result<Dims, usize>
    ensures { dims_pervaded_of result ≡ walk (rule_for filling) (dims_of a) (dims_of b) }
{
    let m = size_count(a);
    let n = size_count(b);
    let count = longer(a, b);
    let mut sizes = [0u64; MAX_SIZES];
    let mut i = 0;
    let at = loop {
        if i == count {
            break i;
        }
        let x = spot(i < m, a.sizes[i]);
        let y = spot(i < n, b.sizes[i]);
        let Some(size) = pervade_spots(x, y, filling) else {
            break i;
        };
        sizes[i] = size;
        i += 1;
    };
    if at < count {
        return Err(at);
    }
    Ok(Dims { sizes, count })
}

// What stands at an index whose place holds this size: the places past a list's count hold none of its sizes.
fn spot(there: bool, size: u64) -> Option<u64>
    ensures { spot_of result ≡ cond «there» (some (dim_of size)) none }
{
    if there { Some(size) } else { None }
}

// Unknown where a size may grow, else as in the separate call.
#[tactic(auto, unfolding(rules::specs::PervadeInSheets::in_sheets_at))]
fn pervade_spots(x: Option<u64>, y: Option<u64>, filling: Filling) -> Option<u64>
    ensures { spot_of result ≡ rule_for filling (spot_of x) (spot_of y) }
{
    if filling.grows && either_grows(x, y, filling) {
        return Some(UNKNOWN);
    }
    meet(x, y, filling.a_fill, filling.b_fill)
}

// One of the two sizes of an index may grow.
fn either_grows(x: Option<u64>, y: Option<u64>, filling: Filling) -> bool
    ensures { result ≡ may_grow filling.a_fill filling.b_open (spot_of x) (spot_of y) || may_grow filling.b_fill filling.a_open (spot_of y) (spot_of x) }
{
    may_grow(filling.a_fill, filling.b_open, x, y) || may_grow(filling.b_fill, filling.a_open, y, x)
}

// The first is a static size other than 1, filled on its own side, and what it meets may be larger.
fn may_grow(fill: bool, opening: bool, x: Option<u64>, y: Option<u64>) -> bool
    ensures { result ≡ may_grow fill opening (spot_of x) (spot_of y) }
{
    if fill {
        return other_than_one(x) && unsettled(opening, y);
    }
    false
}

// A static size other than 1.
fn other_than_one(x: Option<u64>) -> bool
    ensures { result ≡ other_than_one (spot_of x) }
{
    let Some(size) = x else {
        return false;
    };
    size != 1 && size != UNKNOWN
}

// The unknown, or nothing in a shape that is open.
fn unsettled(opening: bool, x: Option<u64>) -> bool
    ensures { result ≡ rules.unsettled opening (spot_of x) }
{
    let Some(size) = x else {
        return opening;
    };
    size == UNKNOWN
}

// The two sizes of an index, of which one may be absent.
fn meet(x: Option<u64>, y: Option<u64>, a_fill: bool, b_fill: bool) -> Option<u64>
    ensures { spot_of result ≡ pervade_at a_fill b_fill (spot_of x) (spot_of y) }
{
    let Some(p) = x else {
        return against_absent(y);
    };
    let Some(q) = y else {
        return against_absent(x);
    };
    pervade_sizes(p, q, a_fill, b_fill)
}

// 1 against absent is unknown.
#[tactic(auto, unfolding(rules::specs::Pervade::against_absent))]
fn against_absent(x: Option<u64>) -> Option<u64>
    ensures { spot_of result ≡ map against_absent (spot_of x) }
{
    let Some(size) = x else {
        return None;
    };
    if size == 1 {
        return Some(UNKNOWN);
    }
    Some(size)
}

// 1 yields, then the unknown; equal statics stay; else the larger, if the smaller's side is filled.
#[tactic(auto, unfolding(rules::specs::Pervade::together))]
fn pervade_sizes(a: u64, b: u64, a_fill: bool, b_fill: bool) -> Option<u64>
    ensures { spot_of result ≡ together a_fill b_fill (dim_of a) (dim_of b) }
{
    if a == 1 {
        return Some(b);
    }
    if b == 1 {
        return Some(a);
    }
    if a == UNKNOWN {
        return Some(b);
    }
    if b == UNKNOWN {
        return Some(a);
    }
    match cmp(a, b) {
        Ordering::Less => where_filled(a_fill, b),
        Ordering::Equal => Some(a),
        Ordering::Greater => where_filled(b_fill, a),
    }
}

fn where_filled(fill: bool, size: u64) -> Option<u64>
    ensures { spot_of result ≡ filled fill (dim_of size) }
{
    if fill {
        return Some(size);
    }
    None
}

// Types in known bytes and their scalars, written to a buffer from a place on as they stand.
ghost use Rattle.std.specs.Prelude.{◌≡◌, ◌+◌, ◌*◌, length, take};
ghost use Rattle.format.specs.Suffices.{box_bytes};
ghost use Rattle.model.specs.Limits.{max_depth};
ghost use Rattle.model.specs.Types.{Fields, Ty, field_count, scalar_of};
ghost use Rattle.known.specs.Known.{TypeAt};
ghost use Rattle.validate.specs.Lists.{ListAt};
ghost use Rattle.validate.specs.Walk.{CopyIs, scalar_piece, type_piece, fields_piece, Copyable, Placeable, Listable};

use crate::Extent;
use crate::lists::next_type;
use known::{scalar_at, span_at};
use lent::lay;

// The scalar of the type at `at`.
#[tactic(auto, using(crate::proofs::CopyLaws::scalar_fits))]
pub fn copy_scalar(s: &[u8], at: usize, out: &mut [u8], to: usize) -> Extent
    requires { Copyable s.now at to (length out.old) }
    ensures { (t : Ty) → TypeAt s.now at max_depth t → CopyIs result out.new (scalar_piece (take to out.old) (scalar_of t)) (to + box_bytes) }
{
    let start = scalar_at(s, at);
    let span = span_at(s, at);
    lay(&s[start..span.end], &mut *out, to);
    Extent {
        end: to + (span.end - start),
        types: span.types - 1,
    }
}

// The type at `at`.
#[tactic(auto, using(crate::proofs::CopyLaws::type_fits))]
pub fn copy_type(s: &[u8], at: usize, out: &mut [u8], to: usize) -> Extent
    requires { Placeable s.now at to (length out.old) }
    ensures { (t : Ty) → TypeAt s.now at max_depth t → CopyIs result out.new (type_piece (take to out.old) t) to }
{
    let span = span_at(s, at);
    lay(&s[at..span.end], &mut *out, to);
    Extent {
        end: to + (span.end - at),
        types: span.types,
    }
}

// So many types of a list.
pub fn copy_fields(
    s: &[u8],
    start: usize,
    count: u64,
    moves: bool,
    out: &mut [u8],
    to: usize,
) -> Extent
    requires { Listable s.now start count moves to (length out.old) }
    ensures { (f : Fields) → ListAt moves s.now start f → field_count f ≡ count → CopyIs result out.new (fields_piece (take to out.old) 0 f) to }
{
    let mut at = start;
    let mut end = to;
    let mut types = 0;
    for _ in 0..count {
        let copied = copy_type(s, at, &mut *out, end);
        at = next_type(s, at, moves);
        end = copied.end;
        types += copied.types;
    }
    Extent { end, types }
}

// From what lies in the scratch to a type's record.
ghost use Rattle.std.specs.Prelude.{◌≡◌, ◌+◌, ◌-◌, ◌≤◌, ◌<◌, length, slice_index, take, drop};
ghost use Rattle.lent.specs.Over.{over};
ghost use Rattle.packing.specs.Layouts.{as_record, as_packed};
ghost use Rattle.packing.specs.Packed.{packed_size, Unpackable, Unpacks};
ghost use Rattle.packing.specs.PackedSizes.{seven_bytes, unpacked_number};
ghost use Rattle.packing.specs.Parts.{HasSizes, HasShape, HasHead, HasDef, SizesDone, ShapeDone, HeadDone, DefDone};

use crate::{Head, Places};
use known::name_at;
use lent::lay;
use limits::{Form, Kind, PACKED_SIZE, PACKED_UNKNOWN, UNKNOWN};
use record::list_count;
use writer::{put_box, put_head, put_number, put_plain};

// The record of the type that lies packed from `start` on, to `out` from `place` on.
pub fn unpack(packed: &[u8], start: usize, out: &mut [u8], place: usize)
    requires { Unpackable packed.now start out.old place }
    ensures { Unpacks packed.now start out.old place out.new }
{
    let mut from = start;
    let mut to = place;
    let mut left = 1u64;
    while 0 < left {
        let shape = unpack_shape(packed, from, &mut *out, to);
        let head = unpack_scalar(packed, shape.from, &mut *out, shape.to);
        from = head.from;
        to = head.to;
        left = left - 1 + head.contents;
    }
}

// A shape: its counts and its sizes.
#[tactic(auto, using(crate::proofs::ShapeLaws::packed_inside, crate::proofs::ShapeLaws::record_long))]
fn unpack_shape(s: &[u8], from: usize, out: &mut [u8], to: usize) -> Places
    requires { HasShape as_packed as_record s.now from out.old to }
    ensures { ShapeDone as_packed as_record s.now from out.old to out.new result }
{
    let opening = s[from];
    let closing = s[from + 1];
    put_head(&mut *out, to, opening, closing);
    let count = opening as u64 + list_count(closing as u64);
    unpack_sizes(s, from + 2, &mut *out, to + 4, count)
}

// So many sizes.
fn unpack_sizes(s: &[u8], start: usize, out: &mut [u8], place: usize, count: u64) -> Places
    requires { HasSizes as_packed as_record s.now start out.old place count }
    ensures { SizesDone as_packed as_record s.now start out.old place count out.new result }
{
    let mut from = start;
    let mut to = place;
    for _ in 0..count {
        put_number(&mut *out, to, unpack_number(seven_at(s, from)));
        from += PACKED_SIZE;
        to += 8;
    }
    Places { from, to }
}

// Seven bytes, low byte first.
fn seven_at(s: &[u8], at: usize) -> u64
    requires { at + packed_size ≤ length s.now }
    ensures { result ≡ seven_bytes s.now at }
{
    let a = s[at] as u64;
    let b = s[at + 1] as u64;
    let c = s[at + 2] as u64;
    let d = s[at + 3] as u64;
    let e = s[at + 4] as u64;
    let f = s[at + 5] as u64;
    let g = s[at + 6] as u64;
    a + 256 * (b + 256 * (c + 256 * (d + 256 * (e + 256 * (f + 256 * g)))))
}

// The number of a size in its record, by its packed one.
fn unpack_number(packed: u64) -> u64
    ensures { result ≡ unpacked_number packed }
{
    if packed == PACKED_UNKNOWN {
        UNKNOWN
    } else {
        packed
    }
}

// A scalar up to its contents.
#[tactic(auto, using(crate::proofs::UnpackHeadLaws::code_inside, crate::proofs::UnpackHeadLaws::form_inside, crate::proofs::UnpackHeadLaws::record_least, crate::proofs::UnpackHeadLaws::box_record), unfolding(crate::specs::Layouts::head_in, rules::specs::Order::code_of, rules::specs::Views::form_of, format::specs::Records::code))]
fn unpack_scalar(s: &[u8], from: usize, out: &mut [u8], to: usize) -> Head
    requires { HasHead as_packed as_record s.now from out.old to }
    ensures { HeadDone as_packed as_record s.now from out.old to out.new result }
{
    match Kind::of_code(s[from]) {
        Kind::Box => {
            let form = Form::of_code(s[from + 1]);
            let next = put_box(&mut *out, to, form.code());
            match form {
                Form::Any => Head {
                    from: from + 2,
                    to: next,
                    contents: 0,
                },
                Form::All => Head {
                    from: from + 2,
                    to: next,
                    contents: 1,
                },
                Form::Def => unpack_def(s, from + 2, &mut *out, next),
            }
        }
        kind => Head {
            from: from + 1,
            to: put_plain(&mut *out, to, kind.code()),
            contents: 0,
        },
    }
}

// The length of a Def's name, the name and the number of its fields.
fn unpack_def(s: &[u8], from: usize, out: &mut [u8], to: usize) -> Head
    requires { HasDef s.now from out.old to }
    ensures { DefDone s.now from out.old to out.new result }
{
    let name = name_at(s, from);
    copy_def(s, from, name.end, &mut *out, to)
}

// The same where the number of its fields stands at `last`, behind its name.
fn copy_def(s: &[u8], from: usize, last: usize, out: &mut [u8], to: usize) -> Head
    requires { (from ≤ last) × (last < length s.now) × (to + (last + 1 - from) ≤ length out.old) }
    ensures reached { (result.from ≡ last + 1) × (result.to ≡ to + (last + 1 - from)) }
    ensures counted { result.contents ≡ slice_index s.now last }
    ensures laid { out.new ≡ over out.old to (take (last + 1 - from) (drop from s.now)) }
{
    let next = last + 1;
    lay(&s[from..next], &mut *out, to);
    Head {
        from: next,
        to: to + (next - from),
        contents: s[last] as u64,
    }
}

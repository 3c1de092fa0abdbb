// From a type's record to what lies in the scratch.
ghost use Rattle.std.specs.Prelude.{◌≡◌, ◌+◌, ◌-◌, ◌≤◌, ◌++◌, length, take, drop};
ghost use Rattle.format.specs.Reader.{bytes_of};
ghost use Rattle.limits.specs.Codes.{form_code};
ghost use Rattle.limits.specs.declared.codes.Form.TheVariants.{Def};
ghost use Rattle.lent.specs.Over.{over};
ghost use Rattle.packing.specs.Layouts.{as_record, as_packed, form_in};
ghost use Rattle.packing.specs.Packed.{packed_size, Packable, Packs};
ghost use Rattle.packing.specs.Parts.{HasSizes, HasShape, HasHead, SizesDone, ShapeDone, HeadDone};

use crate::{Head, Places};
use known::{View, look};
use lent::lay;
use limits::{Form, Kind, PACKED_SIZE};
use record::{list_count, number_at};

// The record of a type, packed, to `out` from `at` on.
pub fn pack(ty: &[u8], out: &mut [u8], at: usize)
    requires { Packable ty.now out.old at }
    ensures { Packs ty.now out.old at out.new }
{
    let mut from = 0;
    let mut to = at;
    let mut left = 1u64;
    while 0 < left {
        let shape = pack_shape(ty, from, &mut *out, to);
        let head = pack_scalar(ty, shape.from, &mut *out, shape.to);
        from = head.from;
        to = head.to;
        left = left - 1 + head.contents;
    }
}

// A shape: its counts and its sizes.
#[tactic(auto, using(crate::proofs::ShapeLaws::recorded_inside, crate::proofs::ShapeLaws::packed_long, std::proofs::lemmas::Grind::common_steps))]
fn pack_shape(s: &[u8], from: usize, out: &mut [u8], to: usize) -> Places
    requires { HasShape as_record as_packed s.now from out.old to }
    ensures { ShapeDone as_record as_packed s.now from out.old to out.new result }
{
    let opening = s[from + 2];
    let closing = s[from + 3];
    out[to] = opening;
    out[to + 1] = closing;
    let count = opening as u64 + list_count(closing as u64);
    pack_sizes(s, from + 4, &mut *out, to + 2, count)
}

// So many sizes. A size is read as one number and written as one, since it takes far longer byte by byte.
fn pack_sizes(s: &[u8], start: usize, out: &mut [u8], place: usize, count: u64) -> Places
    requires { HasSizes as_record as_packed s.now start out.old place count }
    ensures { SizesDone as_record as_packed s.now start out.old place count out.new result }
{
    let mut from = start;
    let mut to = place;
    for _ in 0..count {
        put_seven(&mut *out, to, number_at(s, from));
        from += 8;
        to += PACKED_SIZE;
    }
    Places { from, to }
}

// The seven low bytes of a number, low byte first: of an unknown size, whose eight are all ones, they are all ones too.
#[tactic(auto, using(crate::proofs::Stores::seven_stores), unfolding(format::specs::Reader::bytes_of))]
fn put_seven(out: &mut [u8], at: usize, n: u64)
    requires { at + packed_size ≤ length out.old }
    ensures { out.new ≡ over out.old at (bytes_of packed_size n) }
{
    let a = n / 256;
    let b = a / 256;
    let c = b / 256;
    let d = c / 256;
    let e = d / 256;
    let f = e / 256;
    out[at] = (n % 256) as u8;
    out[at + 1] = (a % 256) as u8;
    out[at + 2] = (b % 256) as u8;
    out[at + 3] = (c % 256) as u8;
    out[at + 4] = (d % 256) as u8;
    out[at + 5] = (e % 256) as u8;
    out[at + 6] = (f % 256) as u8;
}

// A scalar up to its contents.
#[tactic(auto, using(crate::proofs::PackHeadLaws::head_long))]
fn pack_scalar(s: &[u8], from: usize, out: &mut [u8], to: usize) -> Head
    requires { HasHead as_record as_packed s.now from out.old to }
    ensures { HeadDone as_record as_packed s.now from out.old to out.new result }
{
    match look(s, from) {
        View::Plain { kind, end } => {
            out[to] = kind.code();
            Head {
                from: end,
                to: to + 1,
                contents: 0,
            }
        }
        View::BoxAny { end } => {
            put_form(&mut *out, to, Form::Any);
            Head {
                from: end,
                to: to + 2,
                contents: 0,
            }
        }
        View::BoxAll { content } => {
            put_form(&mut *out, to, Form::All);
            Head {
                from: content,
                to: to + 2,
                contents: 1,
            }
        }
        View::BoxDef {
            name,
            named: _,
            fields,
            count,
        } => Head {
            from: fields,
            to: put_def(s, name, fields, &mut *out, to),
            contents: count,
        },
    }
}

// A box's kind, and its form.
fn put_form(out: &mut [u8], to: usize, form: Form)
    requires { to + 2 ≤ length out.old }
    ensures { out.new ≡ over out.old to (form_in as_packed (form_code form)) }
{
    out[to] = Kind::Box.code();
    out[to + 1] = form.code();
}

// A Def up to its fields: all but its form stands in the record from its name on. Answers the place after it.
#[tactic(auto, using(crate::proofs::Stores::two_and_more))]
fn put_def(s: &[u8], name: usize, fields: usize, out: &mut [u8], to: usize) -> usize
    requires { (name ≤ fields) × (fields ≤ length s.now) × (to + 2 + (fields - name) ≤ length out.old) }
    ensures { (result ≡ to + 2 + (fields - name)) × (out.new ≡ over out.old to (form_in as_packed (form_code Def) ++ take (fields - name) (drop name s.now))) }
{
    put_form(&mut *out, to, Form::Def);
    lay(&s[name..fields], &mut *out, to + 2);
    to + 2 + (fields - name)
}

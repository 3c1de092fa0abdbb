// The head of a Def's record, written to a buffer from a place on. Answers the place after it.
ghost use Rattle.std.specs.Prelude.{cond, List, ℕ, ◌+◌, ◌≤◌, length};
ghost use Rattle.std.proofs.Math.Option.{Option};
ghost use Rattle.format.specs.Suffices.{box_bytes};
ghost use Rattle.known.specs.Known.{NameAt, HasName};
ghost use Rattle.validate.specs.Walk.{def_head, HeadIs};

use known::name_at;
use lent::lay;
use limits::Form;
use writer::put_box;

// Its box, the name that stands at `name`, and the count of its fields.
#[tactic(auto, using(crate::proofs::HeadLaws::title_fits))]
pub fn put_def(s: &[u8], name: usize, count: u8, out: &mut [u8], to: usize) -> usize
    requires { HasName s.now name × (to + box_bytes ≤ length out.old) }
    ensures { (label : Option (List ℕ)) → NameAt s.now name label → HeadIs to (def_head label count) out.old result out.new }
{
    let end = name_at(s, name).end;
    let start = put_box(&mut *out, to, Form::Def.code());
    lay(&s[name..end], &mut *out, start);
    let last = start + (end - name);
    out[last] = count;
    last + 1
}

// The same, where the name stands in the spec's bytes or in the type's.
pub fn put_name(
    spec: &[u8],
    ty: &[u8],
    borrowed: bool,
    name: usize,
    count: u8,
    out: &mut [u8],
    to: usize,
) -> usize
    requires { HasName (cond borrowed spec.now ty.now) name × (to + box_bytes ≤ length out.old) }
    ensures { (label : Option (List ℕ)) → NameAt (cond borrowed spec.now ty.now) name label → HeadIs to (def_head label count) out.old result out.new }
{
    if borrowed {
        return put_def(spec, name, count, &mut *out, to);
    }
    put_def(ty, name, count, &mut *out, to)
}

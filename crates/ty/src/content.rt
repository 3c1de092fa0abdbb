// What stands in a box.
ghost use Rattle.std.specs.Prelude.{◌≡◌};
ghost use Rattle.format.specs.Records.{write_ty};
ghost use Rattle.format.specs.Outcome.{accepted, deliver, mapped, lone};
ghost use Rattle.lent.specs.Written.{delivered};
ghost use Rattle.record.specs.Answers.{nothing};
ghost use Rattle.rules.specs.Types.{unboxed};
ghost use Rattle.ty.specs.Parts.{content_of};

use crate::parts::{Part, find_field};
use crate::whole::{whole_scalar, whole_shape};
use known::View;
use lent::hand_over;
use limits::records::ANY_TYPE;
use limits::refusal::Refusal;
use record::read_lone;
use shape::is_scalar;

// The content of a box of shape []; all else stays.
#[tactic(auto, using(lent::specs::Delivers::deliver_refusal, crate::proofs::ContentLaws::unboxed_in, crate::proofs::ContentLaws::unboxed_out))]
pub fn unboxed(ty: &[u8], res: &mut [u8]) -> Result<usize, Refusal>
    ensures { delivered result res.new ≡ deliver (mapped (λ t. write_ty (unboxed t)) (lone ty.now)) res.old }
{
    read_lone(ty)?;
    if is_scalar(whole_shape(ty)) {
        return write_content(ty, &mut *res);
    }
    hand_over(ty, &mut *res)
}

// What a box holds, whatever its shape: the content of an All, the first field of a Def, [..] of Any where nothing is inside.
// What is no box stays.
#[tactic(auto, using(crate::proofs::ContentLaws::first_is, crate::proofs::ContentLaws::any_written), unfolding(crate::specs::Parts::content_of, rules::specs::Types::field_at))]
fn write_content(ty: &[u8], res: &mut [u8]) -> Result<usize, Refusal>
    requires { mapped nothing (lone ty.now) ≡ accepted 0 }
    ensures { delivered result res.new ≡ deliver (mapped (λ t. write_ty (content_of t)) (lone ty.now)) res.old }
{
    match whole_scalar(ty) {
        View::Plain { kind: _, end: _ } => hand_over(ty, &mut *res),
        View::BoxAny { end: _ } => hand_over(&ANY_TYPE, &mut *res),
        View::BoxAll { content } => hand_over(&ty[content..], &mut *res),
        View::BoxDef {
            name: _,
            named: _,
            fields,
            count,
        } => match find_field(ty, fields, count, 0) {
            Some(Part { start: at, length }) => hand_over(&ty[at..at + length], &mut *res),
            None => hand_over(&ANY_TYPE, &mut *res),
        },
    }
}

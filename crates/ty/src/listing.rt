// A box as a list of types.
ghost use Rattle.std.specs.Prelude.{◌≡◌};
ghost use Rattle.format.specs.Outcome.{bound, lone};
ghost use Rattle.rules.specs.Types.{as_boxes};
ghost use Rattle.ty.specs.Calls.{boxes_of, given, deliver_boxes};

use crate::copies::write_copies;
use crate::whole::{whole_scalar, whole_shape};
use known::View;
use lent::hand_over;
use limits::records::ANY_TYPE;
use limits::refusal::Refusal;
use record::read_lone;
use shape::row_count;

// A Def's name and fields; of another box as many copies of its content as there are rows; none for what is no box. Answers how many bytes
// were written.
#[tactic(auto, using(crate::proofs::ListingLaws::listed, crate::proofs::ContentLaws::any_written), unfolding(rules::specs::Types::as_boxes))]
pub fn as_boxes(ty: &[u8], res: &mut [u8]) -> Result<Option<usize>, Refusal>
    ensures { given (boxes_of result) res.new ≡ deliver_boxes (bound as_boxes (lone ty.now)) res.old }
{
    read_lone(ty)?;
    let rows = row_count(whole_shape(ty));
    let written = match whole_scalar(ty) {
        View::Plain { kind: _, end: _ } => return Ok(None),
        View::BoxAny { end: _ } => write_copies(&ANY_TYPE, rows, &mut *res)?,
        View::BoxAll { content } => write_copies(&ty[content..], rows, &mut *res)?,
        View::BoxDef {
            name,
            named: _,
            fields: _,
            count: _,
        } => hand_over(&ty[name..], &mut *res)?,
    };
    Ok(Some(written))
}

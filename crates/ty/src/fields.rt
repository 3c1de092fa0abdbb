// Field n of a Def.
ghost use Rattle.std.specs.Prelude.{◌≡◌};
ghost use Rattle.format.specs.Outcome.{mapped, lone};
ghost use Rattle.limits.specs.Answers.{told};
ghost use Rattle.rules.specs.Types.{field_place};
ghost use Rattle.ty.specs.Parts.{part_of};

use crate::parts::{Part, find_field};
use crate::whole::whole_scalar;
use known::View;
use limits::refusal::Refusal;
use record::read_lone;

// Where field n stands, counted from 0; none where there is no such field.
#[tactic(auto, unfolding(rules::specs::Types::field_place))]
pub fn field(ty: &[u8], n: u64) -> Result<Option<Part>, Refusal>
    ensures { mapped part_of (told result) ≡ mapped (field_place n) (lone ty.now) }
{
    read_lone(ty)?;
    match whole_scalar(ty) {
        View::BoxDef {
            name: _,
            named: _,
            fields,
            count,
        } => Ok(find_field(ty, fields, count, n)),
        _ => Ok(None),
    }
}

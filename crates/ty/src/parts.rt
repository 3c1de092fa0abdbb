// Where field n of a lone Def stands.
ghost use Rattle.std.specs.Prelude.{◌≡◌};
ghost use Rattle.format.specs.Outcome.{accepted, mapped, lone};
ghost use Rattle.rules.specs.Types.{field_place};
ghost use Rattle.ty.specs.Parts.{LoneDef, part_of, Found};

use known::{field_at, span_at};

// A stretch of a type's bytes.
#[derive(Clone, Copy)]
pub struct Part {
    pub start: usize,
    pub length: usize,
}

// Field n, of so many that begin at `start`.
#[tactic(auto, using(crate::proofs::FieldLaws::no_stretch, crate::proofs::FieldLaws::no_field, crate::proofs::FieldLaws::bytes_there), unfolding(rules::specs::Types::field_place, rules::specs::Types::field_at))]
pub fn find_field(s: &[u8], start: usize, count: u64, n: u64) -> Option<Part>
    requires { LoneDef s.now start count }
    ensures place { mapped (field_place n) (lone s.now) ≡ accepted (part_of result) }
    ensures bytes { Found s.now n result }
{
    if count <= n {
        return None;
    }
    let at = field_at(s, start, n);
    let span = span_at(s, at);
    Some(Part {
        start: at,
        length: span.end - at,
    })
}

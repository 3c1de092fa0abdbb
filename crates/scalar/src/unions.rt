// `union` of two scalars in their bytes: the kind that the table of kinds says; or, where it leaves that to two boxes' contents, one of
// the two as it stands, or a box Any.
ghost use Rattle.std.specs.Prelude.{◌≡◌, cond};
ghost use Rattle.model.specs.Types.{Scalar, Ty, box_any, box_of};
ghost use Rattle.format.specs.Records.{box_code, write_scalar};
ghost use Rattle.format.specs.Outcome.{accepted, deliver, both, lone};
ghost use Rattle.lent.specs.Written.{delivered};
ghost use Rattle.record.specs.Answers.{nothings};
ghost use Rattle.rules.specs.Order.{code_of};
ghost use Rattle.rules.specs.Scalars.{later_ty, union};
ghost use Rattle.known.specs.Known.{ScalarAt, TypeAt, HasScalar, HasType};
ghost use Rattle.known.specs.Whole.{of_scalars};
ghost use Rattle.scalar.specs.Calls.{chosen_of, united_record, UnitedWithin, compatible_contents};

use crate::boxes::{compatible_contents, inner_at};
use crate::whole::start_of;
use crate::{Chosen, Inner, United};
use known::kind_at;
use lent::hand_over;
use limits::MAX_DEPTH;
use limits::records::BOX_ANY_SCALAR;
use limits::refusal::Refusal;
use order::{Ranking, compare_types};
use record::read_two;
use writer::write_kind;

// The union's record, to the front of the result.
#[tactic(auto, using(lent::specs::Delivers::deliver_refusal), unfolding(format::specs::Records::code, format::specs::Records::write_scalar))]
pub fn union(a: &[u8], b: &[u8], res: &mut [u8]) -> Result<usize, Refusal>
    ensures { delivered result res.new ≡ deliver (of_scalars (λ k l. write_scalar (union k l)) a.now b.now) res.old }
{
    read_two(a, b)?;
    match unite(a, b) {
        United::Kind(kind) => write_kind(kind.code(), &mut *res),
        United::First(i) => hand_over(&a[i..], &mut *res),
        United::Second(j) => hand_over(&b[j..], &mut *res),
        United::BoxAny => hand_over(&BOX_ANY_SCALAR, &mut *res),
    }
}

// The union of two types' scalars: the kind that the table says; or, of two boxes, one of them as it stands or a box Any.
#[tactic(auto, using(crate::proofs::WholeLaws::scalar_stands))]
pub fn unite(a: &[u8], b: &[u8]) -> United
    requires { both nothings (lone a.now) (lone b.now) ≡ accepted 0 }
    ensures { (of_scalars (λ k l. write_scalar (union k l)) a.now b.now ≡ accepted (united_record a.now b.now result)) × UnitedWithin a.now b.now result }
{
    let i = start_of(a);
    let j = start_of(b);
    match kind_table::union(kind_at(a, i), kind_at(b, j)) {
        Some(kind) => United::Kind(kind),
        None => match unite_boxes(a, i, b, j, MAX_DEPTH - 1) {
            Chosen::First => United::First(i),
            Chosen::Second => United::Second(j),
            Chosen::Neither => United::BoxAny,
        },
    }
}

// Two boxes inside bytes: the first, unless both are All boxes.
pub fn unite_boxes(a: &[u8], i: usize, b: &[u8], j: usize, depth: u64) -> Chosen
    requires { HasScalar a.now i depth × HasScalar b.now j depth }
    ensures { (k l : Scalar) → ScalarAt a.now i depth k → ScalarAt b.now j depth l → code_of k ≡ box_code → code_of l ≡ box_code → chosen_of result k l ≡ union k l }
{
    match inner_at(a, i) {
        Inner::Content(content) => match inner_at(b, j) {
            Inner::Content(other) => choose_content(a, content, b, other, depth),
            Inner::Kind(_) => Chosen::First,
        },
        Inner::Kind(_) => Chosen::First,
    }
}

// Two All boxes by their contents: the later one, if they are compatible.
fn choose_content(a: &[u8], i: usize, b: &[u8], j: usize, depth: u64) -> Chosen
    requires { HasType a.now i depth × HasType b.now j depth }
    ensures { (t u : Ty) → TypeAt a.now i depth t → TypeAt b.now j depth u → chosen_of result (box_of t) (box_of u) ≡ cond (compatible_contents t u) (box_of (later_ty t u)) box_any }
{
    if !compatible_contents(a, i, b, j, depth) {
        return Chosen::Neither;
    }
    match compare_types(a, i, b, j, depth) {
        Ranking::Less | Ranking::Same(_) => Chosen::Second,
        Ranking::More => Chosen::First,
    }
}

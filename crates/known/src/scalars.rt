// Scalars: their kinds, what they are, and where what they hold begins.
ghost use Rattle.std.specs.Prelude.{◌≡◌, ℕ};
ghost use Rattle.model.specs.Types as types;
ghost use Rattle.model.specs.Types.{Scalar, plain};
ghost use Rattle.format.specs.Records.{code, box_code, write_scalar};
ghost use Rattle.limits.specs.Codes.{code_for, form_code};
ghost use Rattle.lent.specs.Over.{over};
ghost use Rattle.rules.specs.Order.{code_of};
ghost use Rattle.rules.specs.Views.{form_of};
ghost use Rattle.known.specs.Known.{ScalarAt, HasScalar, HasBox, Seen};

use crate::View;
use crate::names::name_at;
use limits::{Form, Kind};

// The kind of a scalar.
#[tactic(auto, using(crate::proofs::ScalarLaws::kind_inside, crate::proofs::ScalarLaws::kind_there))]
pub fn kind_at(s: &[u8], at: usize) -> Kind
    requires { (d : ℕ) × HasScalar s.now at d }
    ensures { (d : ℕ) (k : Scalar) → ScalarAt s.now at d k → code_for result ≡ code_of k }
{
    Kind::of_code(s[at + 2])
}

// The form of a box.
#[tactic(auto, using(crate::proofs::ScalarLaws::form_inside, crate::proofs::ScalarLaws::form_there))]
pub fn form_at(s: &[u8], at: usize) -> Form
    requires { (d : ℕ) × HasBox s.now at d }
    ensures { (d : ℕ) (k : Scalar) → ScalarAt s.now at d k → code_of k ≡ box_code → form_code result ≡ form_of k }
{
    Form::of_code(s[at + 5])
}

// What a scalar is, and where what it holds begins.
#[tactic(auto, using(crate::proofs::ScalarLaws::kind_inside))]
pub fn look(s: &[u8], at: usize) -> View
    requires { (d : ℕ) × HasScalar s.now at d }
    ensures { (d : ℕ) (k : Scalar) → ScalarAt s.now at d k → Seen s.now at d k result }
{
    match kind_at(s, at) {
        Kind::Box => look_inside(s, at),
        kind => View::Plain { kind, end: at + 3 },
    }
}

// The same of a box.
#[tactic(auto, using(crate::proofs::ScalarLaws::form_inside))]
fn look_inside(s: &[u8], at: usize) -> View
    requires { (d : ℕ) × HasBox s.now at d }
    ensures { (d : ℕ) (k : Scalar) → ScalarAt s.now at d k → code_of k ≡ box_code → Seen s.now at d k result }
{
    match form_at(s, at) {
        Form::Any => View::BoxAny { end: at + 6 },
        Form::All => View::BoxAll { content: at + 6 },
        Form::Def => {
            let name = name_at(s, at + 6);
            View::BoxDef {
                name: at + 6,
                named: name.named,
                fields: name.end + 1,
                count: s[name.end] as u64,
            }
        }
    }
}

// The code of another kind where a kind stands.
#[tactic(auto, using(crate::proofs::ScalarLaws::kind_inside))]
pub fn put_kind(out: &mut [u8], at: usize, kind: u8)
    requires { (d : ℕ) × (k : types.Kind) × ScalarAt out.old at d (plain k) }
    ensures { (d : ℕ) (k l : types.Kind) → ScalarAt out.old at d (plain k) → kind ≡ code l → out.new ≡ over out.old at (write_scalar (plain l)) }
{
    out[at + 2] = kind;
}

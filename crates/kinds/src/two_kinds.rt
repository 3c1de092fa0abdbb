// The three rules of two kinds, as `scalar.rs` has them. The checker itself looks their answers up in the table.
ghost use Rattle.std.specs.Prelude.{◌≡◌};
ghost use Rattle.limits.specs.Codes.{code_for};
ghost use Rattle.model.specs.Types.{Scalar};
ghost use Rattle.rules.specs.Order.{code_of};
ghost use Rattle.rules.specs.Scalars.{superset_codes, stream_or_box, compatible_codes};
ghost use Rattle.rules.specs.KindTable.{union_number};
ghost use Rattle.kind_table.specs.Union.{united_number};

use limits::Kind;
use order::kind_place;

// Any over all; Complex, Num, Int, Nat, Bool each over the later ones; Char over Ascii; each over its own kind.
#[tactic(auto, using(crate::proofs::KindLaws::same_code), unfolding(rules::specs::Scalars::superset_codes, rules::specs::Order::kind_place, format::specs::Records::code))]
pub fn superset_of(k: Kind, l: Kind) -> bool
    ensures { result ≡ superset_codes (code_for k) (code_for l) }
{
    if k == Kind::Any {
        return true;
    }
    let place = kind_place(k.code() as u64);
    if place <= kind_place(Kind::Complex.code() as u64) {
        return kind_place(l.code() as u64) <= place;
    }
    k == Kind::Char && l == Kind::Ascii || k == l
}

// Either over the other, or each a Stream or a Box.
#[tactic(auto, unfolding(rules::specs::Scalars::compatible_codes))]
pub fn compatible_with(k: Kind, l: Kind) -> bool
    ensures { result ≡ compatible_codes (code_for k) (code_for l) }
{
    superset_of(k, l) || superset_of(l, k) || stream_or_box(k) && stream_or_box(l)
}

#[tactic(auto, unfolding(format::specs::Records::code))]
fn stream_or_box(k: Kind) -> bool
    ensures { result ≡ stream_or_box (code_for k) }
{
    matches!(k, Kind::Stream | Kind::Box)
}

// Two boxes by their contents; else whichever is over the other, tried for the first before the second; else Any.
#[tactic(auto, using(crate::proofs::KindLaws::uniting), unfolding(format::specs::Records::code))]
pub fn union(k: Kind, l: Kind) -> Option<Kind>
    ensures { (x y : Scalar) → code_for k ≡ code_of x → code_for l ≡ code_of y → united_number result ≡ union_number x y }
{
    if k == Kind::Box && l == Kind::Box {
        return None;
    }
    if superset_of(k, l) {
        return Some(k);
    }
    if superset_of(l, k) {
        return Some(l);
    }
    Some(Kind::Any)
}

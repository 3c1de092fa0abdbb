// Two kinds, looked up in the table of kinds (document 02, 2026-02), and the table handed out.
// The table is a constant, which is made anew on the stack wherever a number is looked up in it. So the most frequent pairs, a kind beside
// itself, are answered before.
#![tactic(auto)]

mod table;

ghost use Rattle.std.specs.Prelude.{◌≡◌, ◌+◌, ◌≤◌, length};
ghost use Rattle.format.specs.Outcome.{accepted, deliver};
ghost use Rattle.limits.specs.Codes.{code_for};
ghost use Rattle.lent.specs.Written.{delivered};
ghost use Rattle.model.specs.Types.{Scalar};
ghost use Rattle.rules.specs.Order.{code_of};
ghost use Rattle.rules.specs.Scalars.{superset_codes, compatible_codes};
ghost use Rattle.rules.specs.KindTable.{pair_count, union_number, kind_table};
ghost use Rattle.rules.specs.KindTableLaws.{IsSquare};
ghost use Rattle.kind_table.specs.Rows.{RowsLaid};
ghost use Rattle.kind_table.specs.Union.{united_number};

use lent::lay;
use limits::refusal::{Reason, Refusal};
use limits::{KIND_COUNT, KIND_NUMBERS, KIND_PAIRS, Kind};
use std::convert::TryFrom;
use table::{COMPATIBLE, KINDS, SUPERSET, UNION};

// Whether the first is a superset of the second.
pub fn superset(k: Kind, l: Kind) -> bool
    ensures { result ≡ superset_codes (code_for k) (code_for l) }
{
    // Each kind covers itself.
    if k == l {
        return true;
    }
    let superset = KINDS[SUPERSET];
    superset[k.code() as usize][l.code() as usize] == 1
}

// `compatible_with`.
pub fn compatible(k: Kind, l: Kind) -> bool
    ensures { result ≡ compatible_codes (code_for k) (code_for l) }
{
    let compatible = KINDS[COMPATIBLE];
    compatible[k.code() as usize][l.code() as usize] == 1
}

// The union's kind, or none where the boxes' contents decide.
pub fn union(k: Kind, l: Kind) -> Option<Kind>
    ensures { (x y : Scalar) → code_for k ≡ code_of x → code_for l ≡ code_of y → united_number result ≡ union_number x y }
{
    // A kind with itself is that kind; of two boxes the contents decide.
    if k == l {
        if k == Kind::Box {
            return None;
        }
        return Some(k);
    }
    let union = KINDS[UNION];
    Kind::try_from(union[k.code() as usize][l.code() as usize]).ok()
}

// The table's numbers in turn, a byte each, to the front of the result.
#[tactic(auto, using(crate::proofs::TableLaws::table_short))]
pub fn kinds(res: &mut [u8]) -> Result<usize, Refusal>
    ensures { delivered result res.new ≡ deliver (accepted kind_table) res.old }
{
    if res.len() < KIND_NUMBERS {
        return Err(Refusal(Reason::TooShort, 0));
    }
    lay_square(KINDS[SUPERSET], &mut *res, SUPERSET * KIND_PAIRS);
    lay_square(KINDS[COMPATIBLE], &mut *res, COMPATIBLE * KIND_PAIRS);
    lay_square(KINDS[UNION], &mut *res, UNION * KIND_PAIRS);
    Ok(KIND_NUMBERS)
}

// Row after row, from `at` on.
fn lay_square(square: [[u8; KIND_COUNT]; KIND_COUNT], out: &mut [u8], at: usize)
    requires { IsSquare square × (at + pair_count ≤ length out.old) }
    ensures { RowsLaid out.old at square out.new }
{
    for i in 0..KIND_COUNT {
        lay(&square[i], &mut *out, at + i * KIND_COUNT);
    }
}

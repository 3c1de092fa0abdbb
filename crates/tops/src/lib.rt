// The rules of the steps on the types on top of the stack, none of which lies packed. What a rule makes of them goes to a buffer, which is
// refused where it is too short; one that holds any type is not.
#![tactic(auto)]

ghost use Rattle.std.specs.Prelude.{◌≡◌, List, ◌⊎◌, ℕ};
ghost use Rattle.std.proofs.Math.Option.{none};
ghost use Rattle.model.specs.Types.{shape, Ty};
ghost use Rattle.format.specs.Records.{write_ty};
ghost use Rattle.format.specs.Outcome.{accepted, deliver, mapped, both, lone};
ghost use Rattle.limits.specs.Codes.{code_for};
ghost use Rattle.lent.specs.Written.{delivered, Puts, Short};
ghost use Rattle.record.specs.Answers.{nothings, dims_of};
ghost use Rattle.rules.specs.PervadeInSheets.{pervade_in_sheets};
ghost use Rattle.rules.specs.Types.{into_row, join_types};
ghost use Rattle.validation.specs.CheckShape.{unsided};
ghost use Rattle.validation.specs.Validate.{validate};
ghost use Rattle.machine.specs.Run.{pervade_types};
ghost use Rattle.stack.specs.Stack.{memory};
ghost use Rattle.tops.specs.Answers.{Workable, OfTop, OfTwo, at_start};
ghost use Rattle.tops.specs.Plain.{plainly};

use join::{join_known, union_kind, write_union};
use known::{closed_at, kind_at, opening_at, scalar_at, shape_at};
use limits::Kind;
use limits::refusal::{Reason, Refusal};
use record::Dims;
use shape::{Pervading, pervade_closed, pervade_dyn_shapes};
use stack::bytes_of;
use ty::{Which, row_known};
use validate::{Side, validate_known, validate_plain};
use writer::write_closed;

// The row of the top.
pub fn row_top<'a>(
    count: usize,
    ends: &[usize],
    lengths: &[usize],
    s: &'a [u8],
    trays: &'a [u8],
    out: &mut [u8],
) -> Result<usize, Refusal>
    requires { (d : List ℕ) × Workable 1 (memory ends.now lengths.now s.now trays.now d) count }
    ensures { (d : List ℕ) → OfTop (λ t. accepted (into_row t)) (memory ends.now lengths.now s.now trays.now d) count result out.new }
{
    let top = bytes_of(count - 1, ends, lengths, s, trays);
    row_known(top, Which::First, &mut *out)
}

// The join of the top with the one below.
pub fn join_top<'a>(
    count: usize,
    ends: &[usize],
    lengths: &[usize],
    s: &'a [u8],
    trays: &'a [u8],
    out: &mut [u8],
) -> Result<usize, Refusal>
    requires { (d : List ℕ) × Workable 2 (memory ends.now lengths.now s.now trays.now d) count }
    ensures { (d : List ℕ) → OfTwo (λ t u. accepted (join_types t u)) (memory ends.now lengths.now s.now trays.now d) count result out.new }
{
    let top = bytes_of(count - 1, ends, lengths, s, trays);
    let below = bytes_of(count - 2, ends, lengths, s, trays);
    join_known(top, below, &mut *out)
}

// The pervading of the top with the one below.
pub fn pervade_top<'a>(
    count: usize,
    ends: &[usize],
    lengths: &[usize],
    s: &'a [u8],
    trays: &'a [u8],
    top_fill: bool,
    below_fill: bool,
    out: &mut [u8],
) -> Result<usize, Refusal>
    requires { (d : List ℕ) × Workable 2 (memory ends.now lengths.now s.now trays.now d) count }
    ensures { (d : List ℕ) → OfTwo (λ t u. at_start (pervade_types top_fill below_fill t u))
        (memory ends.now lengths.now s.now trays.now d) count result out.new }
{
    let top = bytes_of(count - 1, ends, lengths, s, trays);
    let below = bytes_of(count - 2, ends, lengths, s, trays);
    pervade_types(top, below, top_fill, below_fill, &mut *out)
}

// The pervading of bytes that are known to be types: that of sheets, of their shapes, with the union of their scalars.
#[tactic(auto, using(crate::proofs::PlainLaws::first_known, crate::proofs::PlainLaws::second_known))]
fn pervade_types(
    a: &[u8],
    b: &[u8],
    a_fill: bool,
    b_fill: bool,
    out: &mut [u8],
) -> Result<usize, Refusal>
    requires { both nothings (lone a.now) (lone b.now) ≡ accepted 0 }
    ensures { delivered result out.new ≡ deliver
        (both (λ t u. mapped write_ty (at_start (pervade_types a_fill b_fill t u))) (lone a.now) (lone b.now)) out.old }
{
    // Closed shapes, as most are, have nothing but opening sizes: no closing list is made, and a kind is written behind them at once.
    if closed_at(a, 0) && closed_at(b, 0) {
        if let Some(kind) = union_kind(a, b) {
            return pervade_plain(
                opening_at(a, 0),
                opening_at(b, 0),
                a_fill,
                b_fill,
                kind,
                &mut *out,
            );
        }
    }
    pervade_any(a, b, a_fill, b_fill, &mut *out)
}

// The same of any shapes and any scalars.
#[tactic(auto, using(crate::proofs::PlainLaws::first_known, crate::proofs::PlainLaws::second_known))]
fn pervade_any(
    a: &[u8],
    b: &[u8],
    a_fill: bool,
    b_fill: bool,
    out: &mut [u8],
) -> Result<usize, Refusal>
    requires { both nothings (lone a.now) (lone b.now) ≡ accepted 0 }
    ensures { delivered result out.new ≡ deliver
        (both (λ t u. mapped write_ty (at_start (pervade_types a_fill b_fill t u))) (lone a.now) (lone b.now)) out.old }
{
    let pervaded = pervade_dyn_shapes(
        shape_at(a, 0),
        shape_at(b, 0),
        a_fill,
        b_fill,
        Pervading::InSheets,
    );
    match pervaded {
        Some(shape) => write_union(shape, a, b, &mut *out),
        None => Err(Refusal(Reason::Unpervaded, 0)),
    }
}

// The pervading of closed shapes by their opening sizes, where the union of the scalars is of this kind.
#[tactic(auto, using(lent::specs::Delivers::deliver_refusal))]
fn pervade_plain(
    a: Dims,
    b: Dims,
    a_fill: bool,
    b_fill: bool,
    kind: Kind,
    out: &mut [u8],
) -> Result<usize, Refusal>
    ensures { delivered result out.new ≡ deliver
        (plainly (code_for kind) (pervade_in_sheets a_fill b_fill (shape (dims_of a) none) (shape (dims_of b) none))) out.old }
{
    match pervade_closed(a, b, a_fill, b_fill, Pervading::InSheets) {
        Some(dims) => write_closed(dims, kind.code(), &mut *out),
        None => Err(Refusal(Reason::Unpervaded, 0)),
    }
}

// The top, validated without side by bytes that are known to be a type.
pub fn validate_top<'a>(
    count: usize,
    ends: &[usize],
    lengths: &[usize],
    s: &'a [u8],
    trays: &'a [u8],
    spec: &[u8],
    out: &mut [u8],
) -> Result<usize, Refusal>
    requires { ((d : List ℕ) × Workable 1 (memory ends.now lengths.now s.now trays.now d) count) × ((x : Ty) × (lone spec.now ≡ accepted x)) }
    ensures { (x : Ty) (d : List ℕ) → lone spec.now ≡ accepted x
        → OfTop (λ t. validate unsided x t) (memory ends.now lengths.now s.now trays.now d) count result out.new }
{
    let top = bytes_of(count - 1, ends, lengths, s, trays);
    validate_types(spec, top, &mut *out)
}

// The validation without side of bytes that are known to be types. Closed shapes with plain kinds, as most are, want no more room than
// their result; any other pair wants that of any type.
#[tactic(auto, using(crate::proofs::PlainLaws::first_known, crate::proofs::PlainLaws::second_known))]
fn validate_types(spec: &[u8], ty: &[u8], out: &mut [u8]) -> Result<usize, Refusal>
    requires { both nothings (lone spec.now) (lone ty.now) ≡ accepted 0 }
    ensures { Puts result out.new (both (λ s t. mapped write_ty (validate unsided s t)) (lone spec.now) (lone ty.now)) ⊎ Short result out.new }
{
    if closed_at(spec, 0) && closed_at(ty, 0) {
        let over = kind_at(spec, scalar_at(spec, 0));
        let kind = kind_at(ty, scalar_at(ty, 0));
        if over != Kind::Box && kind != Kind::Box {
            return validate_plain(
                opening_at(spec, 0),
                over,
                opening_at(ty, 0),
                kind,
                &mut *out,
            );
        }
    }
    validate_known(Side::Unsided, spec, ty, &mut *out)
}

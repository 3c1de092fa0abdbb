// Shapes: their sizes by value, and where their scalars begin.
ghost use Rattle.std.specs.Prelude.{◌≡◌, List, ℕ, ◌+◌, length};
ghost use Rattle.model.specs.Types.{Dim, Ty, shape_of};
ghost use Rattle.format.specs.Records.{write_shape};
ghost use Rattle.record.specs.Answers.{dims_of, shape_for};
ghost use Rattle.rules.specs.Shapes.{is_any};
ghost use Rattle.known.specs.Known.{TypeAt, DimsAt, HasType, HasDims, opening_of, is_closed};

use limits::{ABSENT, MAX_SIZES};
use record::{Dims, DynShape, list_count, no_dims, number_at};

// So many sizes from a place on.
#[tactic(auto, using(crate::proofs::ShapeLaws::dims_inside))]
fn dims_at(s: &[u8], start: usize, count: usize) -> Dims
    requires { HasDims s.now start count }
    ensures { (ds : List Dim) → DimsAt s.now start ds → length ds ≡ count → dims_of result ≡ ds }
{
    let mut sizes = [0u64; MAX_SIZES];
    // All eight places are gone through, so that the compiler unrolls the loop and keeps each size in a register of its
    // own; an array that is filled up to a count it must store, and whoever copies it then waits for the stores.
    for i in 0..MAX_SIZES {
        if i < count {
            sizes[i] = number_at(s, start + 8 * i);
        }
    }
    Dims { sizes, count }
}

// The opening sizes of a type.
#[tactic(auto, using(crate::proofs::ShapeLaws::counts_inside, crate::proofs::ShapeLaws::opening_few, crate::proofs::ShapeLaws::opening_has, crate::proofs::ShapeLaws::opening_there))]
pub fn opening_at(s: &[u8], at: usize) -> Dims
    requires { (d : ℕ) × HasType s.now at d }
    ensures { (d : ℕ) (t : Ty) → TypeAt s.now at d t → dims_of result ≡ opening_of (shape_of t) }
{
    dims_at(s, at + 4, s[at + 2] as usize)
}

// Whether the shape of a type is closed, by the count of its closing sizes.
#[tactic(auto, using(crate::proofs::ShapeLaws::counts_inside, crate::proofs::ShapeLaws::closed_by_count))]
pub fn closed_at(s: &[u8], at: usize) -> bool
    requires { (d : ℕ) × HasType s.now at d }
    ensures { (d : ℕ) (t : Ty) → TypeAt s.now at d t → result ≡ is_closed (shape_of t) }
{
    s[at + 3] as u64 == ABSENT
}

// The shape of a type.
#[tactic(auto, using(crate::proofs::ShapeLaws::counts_inside, crate::proofs::ShapeLaws::shape_inside, crate::proofs::ShapeLaws::shape_long))]
pub fn shape_at(s: &[u8], at: usize) -> DynShape
    requires { (d : ℕ) × HasType s.now at d }
    ensures { (d : ℕ) (t : Ty) → TypeAt s.now at d t → shape_for result ≡ shape_of t }
{
    let dims = opening_at(s, at);
    if closed_at(s, at) {
        return DynShape {
            dims,
            suffix: no_dims(),
            closed: true,
        };
    }
    let suffix = dims_at(s, at + 4 + 8 * s[at + 2] as usize, s[at + 3] as usize);
    DynShape {
        dims,
        suffix,
        closed: false,
    }
}

// Where the scalar of a type begins, by the counts of its shape.
#[tactic(auto, using(crate::proofs::ShapeLaws::counts_inside, crate::proofs::ShapeLaws::shape_inside, crate::proofs::ShapeLaws::shape_long))]
pub fn scalar_at(s: &[u8], at: usize) -> usize
    requires { (d : ℕ) × HasType s.now at d }
    ensures { (d : ℕ) (t : Ty) → TypeAt s.now at d t → result ≡ at + length (write_shape (shape_of t)) }
{
    let opening = s[at + 2] as u64;
    let closing = list_count(s[at + 3] as u64);
    at + 4 + 8 * (opening + closing) as usize
}

// Whether the shape of a type is [..], by its counts.
#[tactic(auto, using(crate::proofs::ShapeLaws::counts_inside, crate::proofs::ShapeLaws::any_by_counts))]
pub fn any_shape_at(s: &[u8], at: usize) -> bool
    requires { (d : ℕ) × HasType s.now at d }
    ensures { (d : ℕ) (t : Ty) → TypeAt s.now at d t → result ≡ is_any (shape_of t) }
{
    s[at + 2] == 0 && s[at + 3] == 0
}

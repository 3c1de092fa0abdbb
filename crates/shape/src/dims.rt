// Lists of sizes by value, index by index: eight-element arrays beside a count.
// The loops that make a list, but for that of `join_ends`, go through all eight places, so that the compiler unrolls them and keeps each
// size in a register of its own; an array filled up to a count it must store, and whoever copies it then waits for the stores.
ghost use Rattle.std.specs.Prelude.{◌≡◌, ◌≤◌, max, min, length, drop, get_or};
ghost use Rattle.std.proofs.Math.ListN.{get_elem?};
ghost use Rattle.model.specs.Limits.{max_sizes};
ghost use Rattle.model.specs.Types.{unknown};
ghost use Rattle.format.specs.Records.{dim_of};
ghost use Rattle.record.specs.Answers.{dims_of};
ghost use Rattle.rules.specs.Shapes.{compatible_dims, merge_dims, join_dims, join_ends};
ghost use Rattle.rules.specs.ShapesSteps.{merge_at, from_end};
ghost use Rattle.shape.specs.Answers.{compatibility_of, spot_of};

use crate::Compatibility;
use crate::sizes::{join_sizes, larger, row_compatible};
use limits::{MAX_SIZES, UNKNOWN};
use record::Dims;
use writer::size_count;

// As many sizes as the longer list, the larger at a shared index, the rest from the longer.
#[tactic(auto, using(crate::proofs::DimsLaws::merging))]
pub fn merge_dims(a: Dims, b: Dims) -> Dims
    ensures { dims_of result ≡ merge_dims (dims_of a) (dims_of b) }
{
    let count = longer(a, b);
    let mut sizes = [0u64; MAX_SIZES];
    for i in 0..MAX_SIZES {
        if i < count {
            sizes[i] = merge_at(a, b, i);
        }
    }
    Dims { sizes, count }
}

#[tactic(auto, using(crate::proofs::DimsLaws::merge_absent))]
fn merge_at(a: Dims, b: Dims, i: usize) -> u64
    ensures { dim_of result ≡ merge_at (get_elem? (dims_of a) i) (get_elem? (dims_of b) i) }
{
    let Some(x) = get(a, i) else {
        return size_at(b, i);
    };
    let Some(y) = get(b, i) else {
        return x;
    };
    larger(x, y)
}

// The shorter count, joined at each index.
#[tactic(auto, using(crate::proofs::DimsLaws::joining))]
pub fn join_dims(a: Dims, b: Dims) -> Dims
    ensures { dims_of result ≡ join_dims (dims_of a) (dims_of b) }
{
    let count = shorter(a, b);
    let mut sizes = [0u64; MAX_SIZES];
    for i in 0..MAX_SIZES {
        if i < count {
            sizes[i] = join_sizes(size_at(a, i), size_at(b, i));
        }
    }
    Dims { sizes, count }
}

// Closing lists: the longer count; entry 0 is unknown, entry i joins the i-th from each end.
#[tactic(auto, using(crate::proofs::DimsLaws::joining_ends))]
pub fn join_ends(a: Dims, b: Dims) -> Dims
    ensures { dims_of result ≡ join_ends (dims_of a) (dims_of b) }
{
    let count = longer(a, b);
    let mut sizes = [0u64; MAX_SIZES];
    for i in 0..count {
        sizes[i] = join_sizes(from_end(a, i), from_end(b, i));
    }
    Dims { sizes, count }
}

// The i-th size from the end, the last being the first; unknown where there is none.
fn from_end(d: Dims, i: usize) -> u64
    ensures { dim_of result ≡ from_end i (dims_of d) }
{
    let count = size_count(d);
    if count < i {
        return UNKNOWN;
    }
    size_at(d, count - i)
}

// Equal counts, and at each index equal, or either 1 or unknown. Most pairs differ at the last size, so the walk goes from the end to the
// front and stops at the first failure that it meets, which is the greatest index that fails.
#[tactic(auto, using(crate::proofs::DimsLaws::comparing))]
pub fn compatible_dims(a: Dims, b: Dims) -> Compatibility
    ensures { compatibility_of result ≡ compatible_dims (dims_of a) (dims_of b) }
{
    let count = size_count(a);
    if count != size_count(b) {
        return Compatibility::CountsDiffer;
    }
    for behind in 0..count {
        let i = count - 1 - behind;
        if !row_compatible(a.sizes[i], b.sizes[i]) {
            return Compatibility::FailsAt(i);
        }
    }
    Compatibility::Yes
}

// All but the first.
#[tactic(auto, using(crate::proofs::DimsLaws::resting))]
pub fn rest_dims(d: Dims) -> Dims
    ensures { dims_of result ≡ drop 1 (dims_of d) }
{
    let n = size_count(d);
    if n == 0 {
        return d;
    }
    let count = n - 1;
    let mut sizes = [0u64; MAX_SIZES];
    for i in 0..MAX_SIZES {
        if i < count {
            sizes[i] = size_at(d, i + 1);
        }
    }
    Dims { sizes, count }
}

// The size at an index, where the list has one.
#[tactic(auto, using(crate::proofs::DimsLaws::slot_there, crate::proofs::DimsLaws::slot_past))]
pub fn get(d: Dims, i: usize) -> Option<u64>
    ensures { spot_of result ≡ get_elem? (dims_of d) i }
{
    if i < size_count(d) {
        return Some(d.sizes[i]);
    }
    None
}

// The same, unknown where the list has none.
#[tactic(auto, using(crate::proofs::DimsLaws::slot_or_unknown))]
fn size_at(d: Dims, i: usize) -> u64
    ensures { dim_of result ≡ get_or (dims_of d) i unknown }
{
    get(d, i).unwrap_or(UNKNOWN)
}

pub fn longer(a: Dims, b: Dims) -> usize
    ensures { (result ≡ max (length (dims_of a)) (length (dims_of b))) × (result ≤ max_sizes) }
{
    size_count(a).max(size_count(b))
}

fn shorter(a: Dims, b: Dims) -> usize
    ensures { (result ≡ min (length (dims_of a)) (length (dims_of b))) × (result ≤ max_sizes) }
{
    size_count(a).min(size_count(b))
}

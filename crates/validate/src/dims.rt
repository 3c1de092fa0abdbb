// Lists of sizes by value, index by index, from the front and from the end.
ghost use Rattle.std.specs.Prelude.{Bool, ◌≡◌, reverse, drop};
ghost use Rattle.model.specs.Types.{Dim};
ghost use Rattle.record.specs.Answers.{dims_of};
ghost use Rattle.validation.specs.CheckShape.{agree};
ghost use Rattle.validate.specs.Dims.{TestsBy};

use record::Dims;
use writer::size_count;

// As far as both lists go, every two sizes pass the test.
pub fn agree<F: Fn(u64, u64) -> bool + Copy>(a: Dims, b: Dims, test: F) -> bool
    requires { F.IsAlwaysCallable test }
    ensures { (rule : Dim → Dim → Bool) → TestsBy (F.post test) rule → result ≡ agree rule (dims_of a) (dims_of b) }
{
    let m = size_count(a);
    let n = size_count(b);
    for i in 0..m.min(n) {
        if !test(a.sizes[i], b.sizes[i]) {
            return false;
        }
    }
    true
}

// The same from the end, of what the second list has left after its `skipped` first sizes.
pub fn agree_ends<F: Fn(u64, u64) -> bool + Copy>(a: Dims, b: Dims, skipped: usize, test: F) -> bool
    requires { F.IsAlwaysCallable test }
    ensures { (rule : Dim → Dim → Bool) → TestsBy (F.post test) rule → result ≡ agree rule (reverse (dims_of a)) (reverse (drop skipped (dims_of b))) }
{
    let m = size_count(a);
    let n = size_count(b);
    for i in 0..m.min(n.saturating_sub(skipped)) {
        if !test(a.sizes[m - 1 - i], b.sizes[n - 1 - i]) {
            return false;
        }
    }
    true
}

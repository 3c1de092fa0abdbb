// Calls on two sizes, all ones for unknown.
ghost use Rattle.std.specs.Prelude.{◌≡◌};
ghost use Rattle.shape_calls.specs.Calls.{cmp_call, cmp_defined_call, max_call, join_sizes_call, compatible_call, row_compatible_call};
ghost use Rattle.velgrodis.specs.Answers.{compared, sized, tested};

use crate::Answer;
use crate::answers::Crosses;

pub fn vg_dim_cmp(a: u64, b: u64) -> Answer
    ensures { result ≡ compared (cmp_call a b) }
{
    shape_calls::dim_cmp(a, b).cross()
}

pub fn vg_dim_cmp_defined(a: u64, b: u64) -> Answer
    ensures { result ≡ compared (cmp_defined_call a b) }
{
    shape_calls::dim_cmp_defined(a, b).cross()
}

pub fn vg_dim_max(a: u64, b: u64) -> Answer
    ensures { result ≡ sized (max_call a b) }
{
    shape_calls::dim_max(a, b).cross()
}

pub fn vg_dim_join(a: u64, b: u64) -> Answer
    ensures { result ≡ sized (join_sizes_call a b) }
{
    shape_calls::dim_join(a, b).cross()
}

pub fn vg_dim_compatible(a: u64, b: u64) -> Answer
    ensures { result ≡ tested (compatible_call a b) }
{
    shape_calls::dim_compatible(a, b).cross()
}

pub fn vg_dim_row_compatible(a: u64, b: u64) -> Answer
    ensures { result ≡ tested (row_compatible_call a b) }
{
    shape_calls::dim_row_compatible(a, b).cross()
}

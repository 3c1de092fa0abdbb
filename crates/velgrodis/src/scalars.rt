// Calls on the scalars of types, the order of two types, and the table of kinds.
ghost use Rattle.std.specs.Prelude.{◌≡◌};
ghost use Rattle.format.specs.Records.{write_scalar};
ghost use Rattle.format.specs.Outcome.{accepted, deliver};
ghost use Rattle.rules.specs.Order.{compare};
ghost use Rattle.rules.specs.Scalars.{union, unrefine, superset_of, compatible_scalars, compatible_with_boxes};
ghost use Rattle.rules.specs.KindTable.{kind_table};
ghost use Rattle.known.specs.Whole.{of_scalar, of_scalars, of_types};
ghost use Rattle.velgrodis.specs.Answers.{handed, written, tested, compared};

use crate::Answer;
use crate::answers::Crosses;

pub fn vg_union(a: &[u8], b: &[u8], res: &mut [u8]) -> Answer
    ensures { handed result res.new ≡ written (deliver (of_scalars (λ k l. write_scalar (union k l)) a.now b.now) res.old) }
{
    scalar::union(a, b, &mut *res).cross()
}

pub fn vg_unrefine(ty: &[u8], res: &mut [u8]) -> Answer
    ensures { handed result res.new ≡ written (deliver (of_scalar (λ k. write_scalar (unrefine k)) ty.now) res.old) }
{
    scalar::unrefine(ty, &mut *res).cross()
}

// Whether the first's scalar is a superset of the second's.
pub fn vg_superset(a: &[u8], b: &[u8]) -> Answer
    ensures { result ≡ tested (of_scalars superset_of a.now b.now) }
{
    scalar::superset(a, b).cross()
}

pub fn vg_compatible_scalars(a: &[u8], b: &[u8]) -> Answer
    ensures { result ≡ tested (of_scalars compatible_scalars a.now b.now) }
{
    scalar::compatible_scalars(a, b).cross()
}

pub fn vg_compatible_with_boxes(a: &[u8], b: &[u8]) -> Answer
    ensures { result ≡ tested (of_scalars compatible_with_boxes a.now b.now) }
{
    scalar::compatible_with_boxes(a, b).cross()
}

// How the first type compares with the second.
pub fn vg_compare(a: &[u8], b: &[u8]) -> Answer
    ensures { result ≡ compared (of_types compare a.now b.now) }
{
    order::compare(a, b).cross()
}

// The table of kinds.
pub fn vg_kinds(res: &mut [u8]) -> Answer
    ensures { handed result res.new ≡ written (deliver (accepted kind_table) res.old) }
{
    kind_table::kinds(&mut *res).cross()
}

// The pervading of two shapes, of types handed in as bytes.
ghost use Rattle.std.specs.Prelude.{◌≡◌};
ghost use Rattle.format.specs.Outcome.{deliver};
ghost use Rattle.lent.specs.Written.{delivered};
ghost use Rattle.shape_calls.specs.Calls.{pervade_call};

use known::shape_at;
use limits::refusal::{Reason, Refusal};
use record::read_two;
use shape::{Pervading, pervade_dyn_shapes};
use writer::write_shape;

// A fill is of the shape that stands in its place. A mismatch is refused at place 0.
#[tactic(auto, using(lent::specs::Delivers::deliver_refusal, crate::proofs::CallLaws::two_known))]
pub fn pervade(
    a: &[u8],
    b: &[u8],
    fill_a: bool,
    fill_b: bool,
    res: &mut [u8],
) -> Result<usize, Refusal>
    ensures { delivered result res.new ≡ deliver (pervade_call fill_a fill_b a.now b.now) res.old }
{
    read_two(a, b)?;
    let pervaded = pervade_dyn_shapes(
        shape_at(a, 0),
        shape_at(b, 0),
        fill_a,
        fill_b,
        Pervading::Separate,
    );
    match pervaded {
        Some(shape) => write_shape(shape, &mut *res),
        None => Err(Refusal(Reason::Unpervaded, 0)),
    }
}

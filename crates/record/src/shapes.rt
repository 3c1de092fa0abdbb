// Shape records, judged and passed over.
ghost use Rattle.std.specs.Prelude.{◌≡◌};
ghost use Rattle.format.specs.Reader.{map_read};
ghost use Rattle.format.specs.Records.{read_dims, read_shape};
ghost use Rattle.record.specs.Answers.{passing_of, nothing};

use crate::bytes::{list_count, read_count, read_mark, read_optional, read_size};
use limits::refusal::Refusal;
use limits::{MAX_SIZES, marks};

// As many sizes, each judged as it is read.
#[tactic(auto, using(crate::proofs::ShapeLaws::sizes_step, crate::proofs::ShapeLaws::sizes_end))]
fn read_sizes(s: &[u8], place: usize, start: usize, count: u64) -> Result<usize, Refusal>
    ensures { passing_of result ≡ map_read nothing (read_dims s.now count place start) }
{
    let mut at = start;
    for _ in 0..count {
        let (_, next) = read_size(s, place, at)?;
        at = next;
    }
    Ok(at)
}

// Closing sizes stand right after the opening ones, so they are read as one list.
#[tactic(auto, using(crate::proofs::ShapeLaws::shape_passed), unfolding(format::specs::Reader::judged))]
pub fn read_shape(s: &[u8], at: usize) -> Result<usize, Refusal>
    ensures { passing_of result ≡ map_read nothing (read_shape s.now at) }
{
    let counts = read_mark(s, at, at, marks::SHAPE)?;
    let (opening, second) = read_count(s, at, counts, MAX_SIZES as u64)?;
    let (closing, sizes) = read_optional(s, at, second, MAX_SIZES as u64)?;
    read_sizes(s, at, sizes, opening + list_count(closing))
}

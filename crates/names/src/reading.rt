// A name as it is read: its length, then its bytes.
ghost use Rattle.machine.specs.Sheet.{name_from};
ghost use Rattle.names.specs.Table.{NameReadIs};

use limits::MAX_NAME;
use limits::refusal::{Reason, Refusal};
use record::read_name;

// The place after the name whose length stands at a place. A refusal names the step's mark.
#[tactic(auto, using(crate::proofs::NameLaws::name_ended, crate::proofs::NameLaws::name_empty, crate::proofs::NameLaws::name_long, crate::proofs::NameLaws::name_told))]
pub fn read_table_name(s: &[u8], mark: usize, at: usize) -> Result<usize, Refusal>
    ensures { NameReadIs result s.now at (name_from s.now mark at) }
{
    if s.len() <= at {
        return Err(Refusal(Reason::Ended, mark));
    }
    let count = s[at] as u64;
    if count == 0 || MAX_NAME < count {
        return Err(Refusal(Reason::OutOfRange, mark));
    }
    read_name(s, mark, at + 1, count)
}

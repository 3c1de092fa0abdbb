// Copies of a type, as `as_boxes` lists them.
ghost use Rattle.std.specs.Prelude.{◌≡◌, ◌+◌, ◌≤◌, length};
ghost use Rattle.model.specs.Limits.{max_fields, max_bytes};
ghost use Rattle.format.specs.Records.{dim_of};
ghost use Rattle.format.specs.Outcome.{accepted, deliver};
ghost use Rattle.lent.specs.Over.{over};
ghost use Rattle.lent.specs.Written.{delivered};
ghost use Rattle.ty.specs.Copies.{repeated, copy_bytes, copy_bytes_for};

use lent::lay;
use limits::refusal::{Reason, Refusal};
use limits::{ABSENT, MAX_FIELDS, UNKNOWN};

// As many copies as there are rows: an unknown number gives one, more than a Def's fields are refused.
#[tactic(auto, using(lent::specs::Delivers::deliver_refusal), unfolding(crate::specs::Copies::copy_bytes_for))]
pub fn write_copies(t: &[u8], rows: u64, res: &mut [u8]) -> Result<usize, Refusal>
    requires { length t.now ≤ max_bytes }
    ensures { delivered result res.new ≡ deliver (copy_bytes_for (dim_of rows) t.now) res.old }
{
    if rows == UNKNOWN {
        return write_list(t, 1, &mut *res);
    }
    if MAX_FIELDS < rows {
        return Err(Refusal(Reason::TooMany, 0));
    }
    write_list(t, rows, &mut *res)
}

// No name, the count, and the copies.
#[tactic(auto, using(lent::specs::Delivers::deliver_bytes, lent::specs::Delivers::deliver_nothing, crate::proofs::CopyLaws::listed))]
fn write_list(t: &[u8], n: u64, res: &mut [u8]) -> Result<usize, Refusal>
    requires { (n ≤ max_fields) × (length t.now ≤ max_bytes) }
    ensures { delivered result res.new ≡ deliver (accepted (copy_bytes n t.now)) res.old }
{
    let size = 2 + n as usize * t.len();
    if res.len() < size {
        return Err(Refusal(Reason::TooShort, 0));
    }
    res[0] = ABSENT as u8;
    res[1] = n as u8;
    put_copies(t, n, &mut *res, 2);
    Ok(size)
}

// One copy after the other, from `start` on.
#[tactic(auto, using(crate::proofs::CopyLaws::repeated_length, crate::proofs::CopyLaws::copies_none, crate::proofs::CopyLaws::copies_more))]
fn put_copies(t: &[u8], n: u64, out: &mut [u8], start: usize)
    requires { start + length (repeated n t.now) ≤ length out.old }
    ensures { out.new ≡ over out.old start (repeated n t.now) }
{
    let mut at = start;
    for _ in 0..n {
        lay(t, &mut *out, at);
        at += t.len();
    }
}

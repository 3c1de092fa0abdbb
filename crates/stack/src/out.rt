// What becomes of the stack in the end: the types left go to the result, and the scratch becomes zero.
ghost use Rattle.std.specs.Prelude.{◌≡◌, List, reverse, ℕ, ◌+◌, ◌≤◌, ◌<◌, length};
ghost use Rattle.model.specs.Types.{Ty};
ghost use Rattle.format.specs.Outcome.{accepted, deliver};
ghost use Rattle.format.specs.Records.{write_ty};
ghost use Rattle.lent.specs.Over.{over};
ghost use Rattle.lent.specs.Written.{delivered};
ghost use Rattle.machine.specs.SheetLimits.{max_stack, scratch_bytes};
ghost use Rattle.machine.specs.Call.{write_types, zeroed};
ghost use Rattle.stack.specs.Stack.{memory, size, Lies, Stacked, HasStack};

use crate::{PACKED_END, bytes_of};
use lent::lay;
use limits::refusal::{Reason, Refusal};
use limits::{MAX_PACKED, SCRATCH_BYTES};
use packing::unpack;

// The types, bottom first, to the front of the result.
#[tactic(auto, using(lent::specs::Delivers::deliver_bytes, lent::specs::Delivers::deliver_nothing))]
pub fn write_types<'a>(
    count: usize,
    ends: &[usize],
    lengths: &[usize],
    s: &'a [u8],
    trays: &'a [u8],
    scratch: &[u8],
    res: &mut [u8],
) -> Result<usize, Refusal>
    requires { HasStack (memory ends.now lengths.now s.now trays.now scratch.now) count }
    ensures { (ts : List Ty) → Stacked (memory ends.now lengths.now s.now trays.now scratch.now) count ts
        → delivered result res.new ≡ deliver (accepted (write_types (reverse ts))) res.old }
{
    let size = total(count, lengths);
    if res.len() < size {
        return Err(Refusal(Reason::TooShort, 0));
    }
    lay_types(count, ends, lengths, s, trays, scratch, &mut *res);
    Ok(size)
}

// The bytes of all types.
fn total(count: usize, lengths: &[usize]) -> usize
    requires { (ends s h d : List ℕ) × HasStack (memory ends lengths.now s h d) count }
    ensures { (ends s h d : List ℕ) (ts : List Ty) → Stacked (memory ends lengths.now s h d) count ts → result ≡ length (write_types (reverse ts)) }
{
    let mut size = 0;
    for &length in &lengths[..count] {
        size += length;
    }
    size
}

fn lay_types<'a>(
    count: usize,
    ends: &[usize],
    lengths: &[usize],
    s: &'a [u8],
    trays: &'a [u8],
    scratch: &[u8],
    res: &mut [u8],
)
    requires { (ts : List Ty) × Stacked (memory ends.now lengths.now s.now trays.now scratch.now) count ts
        × (length (write_types (reverse ts)) ≤ length res.old) }
    ensures { (ts : List Ty) → Stacked (memory ends.now lengths.now s.now trays.now scratch.now) count ts
        → res.new ≡ over res.old 0 (write_types (reverse ts)) }
{
    let mut at = 0;
    for k in 0..count {
        lay_type(k, ends, lengths, s, trays, scratch, &mut *res, at);
        at += lengths[k];
    }
}

// The type k from the bottom, to the result from a place on.
fn lay_type<'a>(
    k: usize,
    ends: &[usize],
    lengths: &[usize],
    s: &'a [u8],
    trays: &'a [u8],
    scratch: &[u8],
    res: &mut [u8],
    at: usize,
)
    requires { ((t : Ty) × Lies (memory ends.now lengths.now s.now trays.now scratch.now) k t × (at + size t ≤ length res.old))
        × (k < max_stack) × (max_stack ≤ length ends.now) × (max_stack ≤ length lengths.now) }
    ensures { (t : Ty) → Lies (memory ends.now lengths.now s.now trays.now scratch.now) k t
        → res.new ≡ over res.old at (write_ty t) }
{
    if ends[k] == PACKED_END {
        unpack(scratch, k * MAX_PACKED, &mut *res, at);
        return;
    }
    lay(bytes_of(k, ends, lengths, s, trays), &mut *res, at);
}

// The bytes that a call asks for become zero; later ones stay.
pub fn clear(scratch: &mut [u8])
    requires { scratch_bytes ≤ length scratch.old }
    ensures { scratch.new ≡ zeroed scratch.old }
{
    scratch[..SCRATCH_BYTES].fill(0);
}

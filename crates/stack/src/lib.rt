// The stack of a sheet's types. A type that was put stays in the sheet until a rule has worked on it. What a rule makes lies in a tray, a
// buffer of the call's own, which it shares with every second type of the stack, and goes packed to its slot of the scratch when the tray
// is needed or too small. How a type lies is known to this crate and to `packing`, and in the definitions to the relation `Stacked`.
//
// Where each type ends and how long its record is stand in slices that are lent too, since a copy of them at each step costs more than
// the step.
#![tactic(auto)]

mod out;
mod tops;
mod trays;

ghost use Rattle.std.specs.Prelude.{◌≡◌, List, ℕ, ◌+◌, ◌≤◌, ◌<◌, length};
ghost use Rattle.model.specs.Types.{Ty};
ghost use Rattle.model.specs.Within.{Within};
ghost use Rattle.format.specs.Records.{write_ty};
ghost use Rattle.format.specs.Views.{Stands};
ghost use Rattle.machine.specs.SheetLimits.{max_stack};
ghost use Rattle.stack.specs.Stack.{memory, size, Lies, HasOne, HasStack, NotPacked, Takes};

use lent::lay;
use limits::{MAX_BYTES, MAX_PACKED};
pub use out::{clear, write_types};
use packing::pack;
pub use tops::{unpack_top, unpack_two, wants_trays};
pub use trays::empty_trays;
use trays::{free_tray, tray_at};

// What stands for the end of a type that lies packed in its slot, and of one that is in its tray. No type ends there in a sheet, being longer.
pub const PACKED_END: usize = 0;

pub const TRAY_END: usize = 1;

// Two trays, the halves of a buffer; how many bytes it has if each tray has room for any type; and how many it has at first, since to
// zero TRAYS_BYTES takes as long as two steps on small types.
pub const TRAYS: usize = 2;

pub const TRAYS_BYTES: usize = TRAYS * MAX_BYTES;

pub const SMALL_TRAYS: usize = TRAYS * 512;

// A type of the sheet, from start to end, on top of the k lowest.
pub fn put(ends: &mut [usize], lengths: &mut [usize], k: usize, start: usize, end: usize)
    requires { (k < max_stack) × (start ≤ end) × (max_stack ≤ length ends.old) × (max_stack ≤ length lengths.old) }
    ensures { (s h d : List ℕ) (t : Ty) → Within t → end ≡ start + size t → Stands s start (write_ty t)
        → Takes (memory ends.old lengths.old s h d) k k t (memory ends.new lengths.new s h d) }
{
    ends[k] = end;
    lengths[k] = end - start;
}

// A type that a rule made, by its record, on top of the k lowest; those that stood above them go. What is too long for a
// tray is packed at once.
pub fn store(
    ends: &mut [usize],
    lengths: &mut [usize],
    k: usize,
    trays: &mut [u8],
    scratch: &mut [u8],
    ty: &[u8],
)
    requires { (k < max_stack) × ((t : Ty) × Within t × (ty.now ≡ write_ty t))
        × ((s : List ℕ) × (count : ℕ) × (k ≤ count) × HasStack (memory ends.old lengths.old s trays.old scratch.old) count) }
    ensures { (s : List ℕ) (count : ℕ) (t : Ty) → k ≤ count → Within t → ty.now ≡ write_ty t
        → Takes (memory ends.old lengths.old s trays.old scratch.old) count k t
        (memory ends.new lengths.new s trays.new scratch.new) }
{
    if trays.len() / TRAYS < ty.len() {
        pack(ty, &mut *scratch, k * MAX_PACKED);
        ends[k] = PACKED_END;
        lengths[k] = ty.len();
        return;
    }
    free_tray(k, &mut *ends, &*lengths, &*trays, &mut *scratch);
    let at = tray_at(k, trays.len());
    lay(ty, &mut *trays, at);
    ends[k] = TRAY_END;
    lengths[k] = ty.len();
}

// The record of the type k from the bottom, which does not lie packed.
#[tactic(auto, using(crate::proofs::LyingLaws::type_inside))]
pub fn bytes_of<'a>(
    k: usize,
    ends: &[usize],
    lengths: &[usize],
    s: &'a [u8],
    trays: &'a [u8],
) -> &'a [u8]
    requires { ((d : List ℕ) × HasOne (memory ends.now lengths.now s.now trays.now d) k) × NotPacked ends.now k
        × (k < length ends.now) × (k < length lengths.now) }
    ensures { (d : List ℕ) (t : Ty) → Lies (memory ends.now lengths.now s.now trays.now d) k t → result.now ≡ write_ty t }
{
    let end = ends[k];
    let n = lengths[k];
    if end == TRAY_END {
        let at = tray_at(k, trays.len());
        return &trays[at..at + n];
    }
    &s[end - n..end]
}

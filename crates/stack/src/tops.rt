// The types on top are unpacked before a rule looks at them, those of them that lie packed.
ghost use Rattle.std.specs.Prelude.{◌≡◌, true, false, List, ℕ, ◌+◌, ◌≤◌, ◌<◌, length, get_or};
ghost use Rattle.stack.specs.Stack.{memory, tray_bytes, full_trays, HasStack, NotPacked, Unpacked, FitTrays, Keeps};

use crate::trays::{free_tray, tray_at};
use crate::{PACKED_END, TRAY_END, TRAYS};
use limits::MAX_PACKED;
use packing::unpack;

// Whether one of the two on top is too long for a tray, wherever it lies: what a rule makes of it may be as long.
pub fn wants_trays(count: usize, lengths: &[usize], trays: &[u8]) -> bool
    requires { (ends s d : List ℕ) × HasStack (memory ends lengths.now s trays.now d) count }
    ensures { (result ≡ true → length trays.now < full_trays)
        × (result ≡ false → FitTrays lengths.now trays.now count) }
{
    let half = trays.len() / TRAYS;
    if count == 0 {
        return false;
    }
    half < lengths[count - 1] || 1 < count && half < lengths[count - 2]
}

// The top.
pub fn unpack_top(
    count: usize,
    ends: &mut [usize],
    lengths: &[usize],
    trays: &mut [u8],
    scratch: &mut [u8],
)
    requires { (1 ≤ count) × ((s : List ℕ) × HasStack (memory ends.old lengths.now s trays.old scratch.old) count)
        × FitTrays lengths.now trays.old count }
    ensures by_index { (s : List ℕ)
        → Keeps (memory ends.old lengths.now s trays.old scratch.old) count
        (memory ends.new lengths.now s trays.new scratch.new) }
    ensures unpacked { Unpacked 1 ends.new count }
{
    unpack_at(count - 1, &mut *ends, lengths, &mut *trays, &mut *scratch);
}

// The top and the one below it.
pub fn unpack_two(
    count: usize,
    ends: &mut [usize],
    lengths: &[usize],
    trays: &mut [u8],
    scratch: &mut [u8],
)
    requires { (2 ≤ count) × ((s : List ℕ) × HasStack (memory ends.old lengths.now s trays.old scratch.old) count)
        × FitTrays lengths.now trays.old count }
    ensures by_index { (s : List ℕ)
        → Keeps (memory ends.old lengths.now s trays.old scratch.old) count
        (memory ends.new lengths.now s trays.new scratch.new) }
    ensures unpacked { Unpacked 2 ends.new count }
{
    unpack_at(count - 1, &mut *ends, lengths, &mut *trays, &mut *scratch);
    unpack_at(count - 2, &mut *ends, lengths, &mut *trays, &mut *scratch);
}

// The type k from the bottom, one of the two on top, goes from its slot to its tray, if it lies packed.
fn unpack_at(k: usize, ends: &mut [usize], lengths: &[usize], trays: &mut [u8], scratch: &mut [u8])
    requires { ((s : List ℕ) × (count : ℕ) × (k < count) × HasStack (memory ends.old lengths.now s trays.old scratch.old) count)
        × (get_or lengths.now k 0 ≤ tray_bytes trays.old) }
    ensures by_index { (s : List ℕ) (count : ℕ) → k < count → count ≤ k + 2
        → Keeps (memory ends.old lengths.now s trays.old scratch.old) count
        (memory ends.new lengths.now s trays.new scratch.new) }
    ensures not_packed { NotPacked ends.new k × ((i : ℕ) → k < i → get_or ends.new i 0 ≡ get_or ends.old i 0) }
{
    if ends[k] != PACKED_END {
        return;
    }
    free_tray(k, &mut *ends, lengths, &*trays, &mut *scratch);
    let at = tray_at(k, trays.len());
    unpack(&*scratch, k * MAX_PACKED, &mut *trays, at);
    ends[k] = TRAY_END;
}

// The trays. The k-th type from the bottom has tray k % 2, so the two on top never want the same one.
ghost use Rattle.std.specs.Prelude.{◌≡◌, List, ℕ, ◌/◌, ◌%◌, ◌≤◌, ◌<◌, get_or};
ghost use Rattle.stack.specs.Stack.{memory, half_at, tray_end, HasStack, NoneInTray, Free, Keeps};

use crate::{PACKED_END, TRAY_END, TRAYS};
use limits::MAX_PACKED;
use packing::pack;

// Where the tray of a type begins, of trays that have so many bytes.
pub fn tray_at(k: usize, bytes: usize) -> usize
    ensures { result ≡ half_at (k % 2) (bytes / 2) }
{
    if k % TRAYS == 0 {
        return 0;
    }
    bytes / TRAYS
}

// The tray of the type k is free of those below it: what lies there goes to its slot.
pub fn free_tray(k: usize, ends: &mut [usize], lengths: &[usize], trays: &[u8], scratch: &mut [u8])
    requires { (s : List ℕ) × (count : ℕ) × (k ≤ count) × HasStack (memory ends.old lengths.now s trays.now scratch.old) count }
    ensures by_index { (s : List ℕ) (count : ℕ) → k ≤ count
        → Keeps (memory ends.old lengths.now s trays.now scratch.old) count
        (memory ends.new lengths.now s trays.now scratch.new) }
    ensures free { Free ends.new k × ((i : ℕ) → k ≤ i → get_or ends.new i 0 ≡ get_or ends.old i 0) }
{
    for i in 0..k {
        put_aside(i, k, &mut *ends, lengths, trays, &mut *scratch);
    }
}

// All trays are free.
pub fn empty_trays(
    count: usize,
    ends: &mut [usize],
    lengths: &[usize],
    trays: &[u8],
    scratch: &mut [u8],
)
    requires { (s : List ℕ) × HasStack (memory ends.old lengths.now s trays.now scratch.old) count }
    ensures by_index { (s : List ℕ)
        → Keeps (memory ends.old lengths.now s trays.now scratch.old) count
        (memory ends.new lengths.now s trays.now scratch.new) }
    ensures none_in_tray { NoneInTray ends.new count }
{
    for i in 0..count {
        put_aside(i, i, &mut *ends, lengths, trays, &mut *scratch);
    }
}

// The type i, if it lies in the tray of the type k.
fn put_aside(
    i: usize,
    k: usize,
    ends: &mut [usize],
    lengths: &[usize],
    trays: &[u8],
    scratch: &mut [u8],
)
    requires { (s : List ℕ) × (count : ℕ) × (i < count) × HasStack (memory ends.old lengths.now s trays.now scratch.old) count }
    ensures by_index { (s : List ℕ) (count : ℕ) → i < count
        → Keeps (memory ends.old lengths.now s trays.now scratch.old) count
        (memory ends.new lengths.now s trays.now scratch.new) }
    ensures fact { (i % 2 ≡ k % 2 → get_or ends.new i 0 ≡ tray_end → ⊥)
        × ((j : ℕ) → (j ≡ i → ⊥) → get_or ends.new j 0 ≡ get_or ends.old j 0) }
{
    if ends[i] != TRAY_END || i % TRAYS != k % TRAYS {
        return;
    }
    let at = tray_at(i, trays.len());
    let n = lengths[i];
    pack(&trays[at..at + n], &mut *scratch, i * MAX_PACKED);
    ends[i] = PACKED_END;
}

// The whole sheet.
ghost use Rattle.std.specs.Prelude.{◌≡◌, List, [], reverse, ℕ, ◌≤◌, length};
ghost use Rattle.model.specs.Limits.{max_bytes};
ghost use Rattle.format.specs.Outcome.{accepted};
ghost use Rattle.machine.specs.SheetLimits.{max_stack, scratch_bytes};
ghost use Rattle.machine.specs.Run.{Stack};
ghost use Rattle.machine.specs.Sheet.{State, fresh, sheet_from, sheet_run};
ghost use Rattle.machine.specs.Call.{sheet_call};
ghost use Rattle.names.specs.Table.{HasNames};
ghost use Rattle.stack.specs.Stack.{memory, Stacked, HasStack, NoneInTray};
ghost use Rattle.step.specs.Answers.{name_table};
ghost use Rattle.run.specs.Answers.{InState, Runs, Measures, Answers, called_of};

use crate::{Left, Reached};
use limits::refusal::{Reason, Refusal};
use limits::{MAX_BYTES, MAX_NAMES, MAX_STACK, MAX_STEPS, SCRATCH_BYTES};
use stack::{SMALL_TRAYS, TRAYS, TRAYS_BYTES, clear, empty_trays, wants_trays, write_types};
use step::work_step;

// Bytes of the buffer that rules write to at first, as many as a small tray has: to zero MAX_BYTES takes as long as a step on small types.
const SMALL_OUT: usize = SMALL_TRAYS / TRAYS;

// Checks a sheet. The types left go to the result, bottom first; the scratch is zero afterwards, as far as it was asked for.
pub fn check_sheet(sheet: &[u8], res: &mut [u8], scratch: &mut [u8]) -> Result<Left, Refusal>
    ensures { called_of result res.new scratch.new ≡ sheet_call sheet.now res.old scratch.old }
{
    let mut lengths = [0usize; MAX_STACK];
    measure_sheet(sheet, &mut *res, &mut *scratch, &mut lengths)
}

// The same, and how long each of the types left is, bottom first.
pub fn measure_sheet(
    sheet: &[u8],
    res: &mut [u8],
    scratch: &mut [u8],
    lengths: &mut [usize],
) -> Result<Left, Refusal>
    requires { max_stack ≤ length lengths.old }
    ensures scratch_after { called_of result res.new scratch.new ≡ sheet_call sheet.now res.old scratch.old }
    ensures measures { Measures result lengths.new (sheet_run sheet.now) }
{
    if scratch.len() < SCRATCH_BYTES {
        return Err(Refusal(Reason::TooShort, 0));
    }
    let answer = run_sheet(
        sheet,
        &mut *res,
        &mut scratch[..SCRATCH_BYTES],
        &mut *lengths,
    );
    clear(&mut *scratch);
    answer
}

// The answer and the result; what the scratch then has is left open. Buffers are made where there is a step to use them.
fn run_sheet(
    sheet: &[u8],
    res: &mut [u8],
    scratch: &mut [u8],
    lengths: &mut [usize],
) -> Result<Left, Refusal>
    requires { (max_stack ≤ length lengths.old) × (scratch_bytes ≤ length scratch.old) }
    ensures { Answers result res.new lengths.new sheet.now res.old }
{
    if sheet.len() == 0 {
        return Ok(Left { types: 0, bytes: 0 });
    }
    run_small(sheet, &mut *res, &mut *scratch, &mut *lengths)
}

// The same with small trays and a small buffer, as far as they go.
fn run_small(
    sheet: &[u8],
    res: &mut [u8],
    scratch: &mut [u8],
    lengths: &mut [usize],
) -> Result<Left, Refusal>
    requires { (max_stack ≤ length lengths.old) × (scratch_bytes ≤ length scratch.old) }
    ensures { Answers result res.new lengths.new sheet.now res.old }
{
    let mut ends = [0usize; MAX_STACK];
    let mut places = [0usize; MAX_NAMES];
    let mut bounds = [0usize; MAX_NAMES];
    let mut out = [0u8; SMALL_OUT];
    let mut trays = [0u8; SMALL_TRAYS];
    let start = Reached {
        at: 0,
        count: 0,
        named: 0,
        taken: 0,
    };
    let reached = run_steps(
        sheet,
        start,
        &mut ends,
        &mut *lengths,
        &mut places,
        &mut bounds,
        &mut trays,
        &mut *scratch,
        &mut out,
    )?;
    if sheet.len() <= reached.at {
        return hand_over(
            reached.count,
            &ends,
            &*lengths,
            sheet,
            &trays,
            &*scratch,
            &mut *res,
        );
    }
    run_roomy(
        sheet,
        reached,
        &mut ends,
        &mut *lengths,
        &mut places,
        &mut bounds,
        &mut trays,
        &mut *scratch,
        &mut *res,
    )
}

// The rest of a sheet, from a step that waits for a longer buffer or a longer tray: the buffer first, which holds any type, and the same trays.
fn run_roomy(
    sheet: &[u8],
    from: Reached,
    ends: &mut [usize],
    lengths: &mut [usize],
    places: &mut [usize],
    bounds: &mut [usize],
    trays: &mut [u8],
    scratch: &mut [u8],
    res: &mut [u8],
) -> Result<Left, Refusal>
    requires { HasStack (memory ends.old lengths.old sheet.now trays.old scratch.old) from.count × HasNames sheet.now places.old bounds.old from.named }
    ensures { (st : State Stack) → InState (memory ends.old lengths.old sheet.now trays.old scratch.old)
        (name_table places.old bounds.old) from st
        → sheet_from sheet.now (fresh []) 0 ≡ sheet_from sheet.now st from.at
        → Answers result res.new lengths.new sheet.now res.old }
{
    let mut out = [0u8; MAX_BYTES];
    let reached = run_steps(
        sheet,
        from,
        &mut *ends,
        &mut *lengths,
        &mut *places,
        &mut *bounds,
        &mut *trays,
        &mut *scratch,
        &mut out,
    )?;
    run_rest(
        sheet,
        reached,
        &mut *ends,
        &mut *lengths,
        &mut *places,
        &mut *bounds,
        &*trays,
        &mut *scratch,
        &mut out,
        &mut *res,
    )
}

// The rest of a sheet, from the place that was reached with small trays. If that is not its end, a type was too long for them.
fn run_rest<'a>(
    sheet: &'a [u8],
    from: Reached,
    ends: &mut [usize],
    lengths: &mut [usize],
    places: &mut [usize],
    bounds: &mut [usize],
    small: &'a [u8],
    scratch: &mut [u8],
    out: &mut [u8],
    res: &mut [u8],
) -> Result<Left, Refusal>
    requires { (max_bytes ≤ length out.old) × HasStack (memory ends.old lengths.old sheet.now small.now scratch.old) from.count
        × HasNames sheet.now places.old bounds.old from.named }
    ensures { (st : State Stack) → InState (memory ends.old lengths.old sheet.now small.now scratch.old)
        (name_table places.old bounds.old) from st
        → sheet_from sheet.now (fresh []) 0 ≡ sheet_from sheet.now st from.at
        → Answers result res.new lengths.new sheet.now res.old }
{
    if sheet.len() <= from.at {
        return hand_over(
            from.count, &*ends, &*lengths, sheet, small, &*scratch, &mut *res,
        );
    }
    empty_trays(from.count, &mut *ends, &*lengths, small, &mut *scratch);
    run_large(
        sheet,
        from,
        &mut *ends,
        &mut *lengths,
        &mut *places,
        &mut *bounds,
        &mut *scratch,
        &mut *out,
        &mut *res,
    )
}

// The rest of a sheet with trays that have room for any type and are empty.
fn run_large(
    sheet: &[u8],
    from: Reached,
    ends: &mut [usize],
    lengths: &mut [usize],
    places: &mut [usize],
    bounds: &mut [usize],
    scratch: &mut [u8],
    out: &mut [u8],
    res: &mut [u8],
) -> Result<Left, Refusal>
    requires { (max_bytes ≤ length out.old) × ((h : List ℕ) × HasStack (memory ends.old lengths.old sheet.now h scratch.old) from.count)
        × HasNames sheet.now places.old bounds.old from.named × NoneInTray ends.old from.count }
    ensures { (h : List ℕ) (st : State Stack) → InState (memory ends.old lengths.old sheet.now h scratch.old)
        (name_table places.old bounds.old) from st
        → sheet_from sheet.now (fresh []) 0 ≡ sheet_from sheet.now st from.at
        → Answers result res.new lengths.new sheet.now res.old }
{
    let mut trays = [0u8; TRAYS_BYTES];
    let reached = run_steps(
        sheet,
        from,
        &mut *ends,
        &mut *lengths,
        &mut *places,
        &mut *bounds,
        &mut trays,
        &mut *scratch,
        &mut *out,
    )?;
    hand_over(
        reached.count,
        &*ends,
        &*lengths,
        sheet,
        &trays,
        &*scratch,
        &mut *res,
    )
}

// The steps from a place on, one after the other, each from the state that the one before left, and the first from any state: so many
// types on the stack, so many names in force, so many steps taken. They stop early where a type that may be worked on next is too long
// for the trays, or a step waits for a longer buffer.
fn run_steps(
    s: &[u8],
    from: Reached,
    ends: &mut [usize],
    lengths: &mut [usize],
    places: &mut [usize],
    bounds: &mut [usize],
    trays: &mut [u8],
    scratch: &mut [u8],
    out: &mut [u8],
) -> Result<Reached, Refusal>
    requires { HasStack (memory ends.old lengths.old s.now trays.old scratch.old) from.count
        × HasNames s.now places.old bounds.old from.named }
    ensures { (st : State Stack) → InState (memory ends.old lengths.old s.now trays.old scratch.old)
        (name_table places.old bounds.old) from st
        → Runs result (memory ends.new lengths.new s.now trays.new scratch.new)
        (name_table places.new bounds.new) out.new (sheet_from s.now st from.at) }
{
    let mut reached = from;
    while reached.at < s.len() {
        if MAX_STEPS <= reached.taken {
            return Err(Refusal(Reason::Overflow, reached.at));
        }
        if wants_trays(reached.count, &*lengths, &*trays) {
            // That this is not the end, the place says.
            return Ok(reached);
        }
        let worked = work_step(
            s,
            reached.at,
            reached.count,
            reached.named,
            &mut *ends,
            &mut *lengths,
            &mut *places,
            &mut *bounds,
            &mut *trays,
            &mut *scratch,
            &mut *out,
        )?;
        if worked.at == reached.at {
            // The step waits, since none ends where it begins.
            return Ok(Reached {
                at: worked.at,
                count: worked.count,
                named: worked.named,
                taken: reached.taken,
            });
        }
        reached = Reached {
            at: worked.at,
            count: worked.count,
            named: worked.named,
            taken: reached.taken + 1,
        };
    }
    Ok(reached)
}

// The types left; a result too short for them is found last, at the sheet's length.
fn hand_over<'a>(
    count: usize,
    ends: &[usize],
    lengths: &[usize],
    s: &'a [u8],
    trays: &'a [u8],
    scratch: &[u8],
    res: &mut [u8],
) -> Result<Left, Refusal>
    requires { HasStack (memory ends.now lengths.now s.now trays.now scratch.now) count }
    ensures { (ts : Stack) → Stacked (memory ends.now lengths.now s.now trays.now scratch.now) count ts → sheet_run s.now ≡ accepted (reverse ts)
        → Answers result res.new lengths.now s.now res.old }
{
    match write_types(count, ends, lengths, s, trays, scratch, &mut *res) {
        Ok(bytes) => Ok(Left {
            types: count,
            bytes,
        }),
        Err(Refusal(reason, _)) => Err(Refusal(reason, s.len())),
    }
}

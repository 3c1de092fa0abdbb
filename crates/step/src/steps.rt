// One step: it is read, then its name is looked at or its rule is worked on the stack. A rule is told the step's fields and gets its
// operands from `stack`, which may find them in the sheet.
ghost use Rattle.std.specs.Prelude.{◌≡◌, List, ℕ, ◌+◌, ◌≤◌, ◌<◌, length, Ok};
ghost use Rattle.model.specs.Types.{Ty};
ghost use Rattle.model.specs.Within.{Within};
ghost use Rattle.format.specs.Records.{write_ty};
ghost use Rattle.format.specs.Views.{Stands};
ghost use Rattle.format.specs.Outcome.{Outcome, accepted, lone};
ghost use Rattle.machine.specs.SheetLimits.{max_stack};
ghost use Rattle.machine.specs.Steps as steps;
ghost use Rattle.machine.specs.Run.{Stack};
ghost use Rattle.machine.specs.Written.{TableName};
ghost use Rattle.machine.specs.Names.{Names, type_in_force, declare};
ghost use Rattle.machine.specs.Sheet.{State};
ghost use Rattle.names.specs.Table.{NameStands, Declares, InForce, HasNames};
ghost use Rattle.stack.specs.Stack.{memory, size, Stacked, HasStack};
ghost use Rattle.step.specs.Answers.{name_table, StepsOrWaits, NameKept, Ready, StepWorks, RuleWorks, UseWorks, Ruled, LaysDown, with_names};

use crate::{Stepped, Worked};
use cursor::{Step, step_at};
use limits::refusal::{Reason, Refusal};
use limits::{MAX_BYTES, MAX_NAMES};
use names::look_up;
use stack::{store, unpack_top, unpack_two};
use tops::{join_top, pervade_top, row_top, validate_top};

// The step whose mark stands at a place. Where `out` may be too short for what its rule makes, it waits: the place is answered again.
pub fn work_step(
    s: &[u8],
    at: usize,
    count: usize,
    named: usize,
    ends: &mut [usize],
    lengths: &mut [usize],
    places: &mut [usize],
    bounds: &mut [usize],
    trays: &mut [u8],
    scratch: &mut [u8],
    out: &mut [u8],
) -> Result<Stepped, Refusal>
    requires { Ready 0 (memory ends.old lengths.old s.now trays.old scratch.old) count
        × HasNames s.now places.old bounds.old named }
    ensures { (st : State Stack) → Stacked (memory ends.old lengths.old s.now trays.old scratch.old) count st.stack
        → InForce s.now places.old bounds.old named st.names
        → StepsOrWaits result (memory ends.new lengths.new s.now trays.new scratch.new)
        (name_table places.new bounds.new) at out.new st }
{
    let step = step_at(s, at, count)?;
    match step {
        Step::Put { start, next } => {
            let worked = put(start, next, next, count, &mut *ends, &mut *lengths);
            keep_names(Ok(worked), named)
        }
        Step::Row { next } => {
            let worked = row(
                at,
                next,
                count,
                s,
                &mut *ends,
                &mut *lengths,
                &mut *trays,
                &mut *scratch,
                &mut *out,
            );
            keep_names(worked, named)
        }
        Step::Pervading {
            top_fill,
            below_fill,
            next,
        } => {
            let worked = pervade(
                top_fill,
                below_fill,
                at,
                next,
                count,
                s,
                &mut *ends,
                &mut *lengths,
                &mut *trays,
                &mut *scratch,
                &mut *out,
            );
            keep_names(worked, named)
        }
        Step::Join { next } => {
            let worked = join(
                at,
                next,
                count,
                s,
                &mut *ends,
                &mut *lengths,
                &mut *trays,
                &mut *scratch,
                &mut *out,
            );
            keep_names(worked, named)
        }
        Step::Validating { start, next } => {
            let worked = validate(
                &s[start..next],
                at,
                next,
                count,
                s,
                &mut *ends,
                &mut *lengths,
                &mut *trays,
                &mut *scratch,
                &mut *out,
            );
            keep_names(worked, named)
        }
        Step::Declaring { name, next } => declare_name(
            s,
            name,
            at,
            next,
            count,
            named,
            &mut *places,
            &mut *bounds,
        ),
        Step::Using { name, next } => {
            let worked = use_name(
                s,
                name,
                at,
                next,
                count,
                named,
                &mut *ends,
                &mut *lengths,
                &*places,
                &*bounds,
            );
            keep_names(worked, named)
        }
    }
}

// What a step comes to that declares no name: as many are in force as before.
fn keep_names(worked: Result<Worked, Refusal>, named: usize) -> Result<Stepped, Refusal>
    ensures { result ≡ with_names worked named }
{
    let worked = worked?;
    Ok(Stepped {
        at: worked.at,
        count: worked.count,
        named,
    })
}

// A declaration leaves the stack as it is. A name too many is found once its type is read.
fn declare_name(
    s: &[u8],
    name: usize,
    at: usize,
    next: usize,
    count: usize,
    named: usize,
    places: &mut [usize],
    bounds: &mut [usize],
) -> Result<Stepped, Refusal>
    requires { HasNames s.now places.old bounds.old named × ((n : TableName) × (t : Ty) × Declares s.now name next n t) }
    ensures { (ns : Names) (n : TableName) (t : Ty) → InForce s.now places.old bounds.old named ns → Declares s.now name next n t
        → NameKept result s.now (name_table places.new bounds.new) count at next (declare ns n t) }
{
    let many = names::declare(s, &mut *places, &mut *bounds, named, name, next);
    if MAX_NAMES < many {
        return Err(Refusal(Reason::TooManyNames, at));
    }
    Ok(Stepped {
        at: next,
        count,
        named: many,
    })
}

// A use puts the type in force, which stays where it was declared.
fn use_name(
    s: &[u8],
    name: usize,
    at: usize,
    next: usize,
    count: usize,
    named: usize,
    ends: &mut [usize],
    lengths: &mut [usize],
    places: &[usize],
    bounds: &[usize],
) -> Result<Worked, Refusal>
    requires { (count < max_stack) × (max_stack ≤ length ends.old) × (max_stack ≤ length lengths.old) × HasNames s.now places.now bounds.now named
        × ((n : TableName) × NameStands s.now name n) }
    ensures { (h d : List ℕ) (ns : Names) (n : TableName) → InForce s.now places.now bounds.now named ns → NameStands s.now name n
        → UseWorks (type_in_force ns n) at next (memory ends.old lengths.old s.now h d) count result
        (memory ends.new lengths.new s.now h d) }
{
    match look_up(s, places, bounds, named, name) {
        Some(found) => Ok(put(
            found.start,
            found.end,
            next,
            count,
            &mut *ends,
            &mut *lengths,
        )),
        None => Err(Refusal(Reason::Undeclared, at)),
    }
}

// A put has nothing to refuse: its reading found room for the type, which stays where it stands, from start to end.
fn put(
    start: usize,
    end: usize,
    next: usize,
    count: usize,
    ends: &mut [usize],
    lengths: &mut [usize],
) -> Worked
    requires { (count < max_stack) × (start ≤ end) × (max_stack ≤ length ends.old) × (max_stack ≤ length lengths.old) }
    ensures { (s h d : List ℕ) (t : Ty) (at : ℕ) → Within t → end ≡ start + size t → Stands s start (write_ty t)
        → StepWorks (steps.put t) at next (memory ends.old lengths.old s h d) count (Ok result) (memory ends.new lengths.new s h d) }
{
    stack::put(&mut *ends, &mut *lengths, count, start, end);
    Worked {
        at: next,
        count: count + 1,
    }
}

fn row(
    at: usize,
    next: usize,
    count: usize,
    s: &[u8],
    ends: &mut [usize],
    lengths: &mut [usize],
    trays: &mut [u8],
    scratch: &mut [u8],
    out: &mut [u8],
) -> Result<Worked, Refusal>
    requires { Ready 1 (memory ends.old lengths.old s.now trays.old scratch.old) count }
    ensures { RuleWorks steps.row at next (memory ends.old lengths.old s.now trays.old scratch.old) count out.new result
        (memory ends.new lengths.new s.now trays.new scratch.new) }
{
    unpack_top(count, &mut *ends, &*lengths, &mut *trays, &mut *scratch);
    let w = row_top(count, &*ends, &*lengths, s, &*trays, &mut *out);
    lay_down(
        count,
        &mut *ends,
        &mut *lengths,
        count - 1,
        &mut *trays,
        &mut *scratch,
        w,
        &*out,
        at,
        next,
    )
}

fn pervade(
    top_fill: bool,
    below_fill: bool,
    at: usize,
    next: usize,
    count: usize,
    s: &[u8],
    ends: &mut [usize],
    lengths: &mut [usize],
    trays: &mut [u8],
    scratch: &mut [u8],
    out: &mut [u8],
) -> Result<Worked, Refusal>
    requires { Ready 2 (memory ends.old lengths.old s.now trays.old scratch.old) count }
    ensures { RuleWorks (steps.pervading top_fill below_fill) at next (memory ends.old lengths.old s.now trays.old scratch.old) count out.new result
        (memory ends.new lengths.new s.now trays.new scratch.new) }
{
    unpack_two(count, &mut *ends, &*lengths, &mut *trays, &mut *scratch);
    let w = pervade_top(
        count, &*ends, &*lengths, s, &*trays, top_fill, below_fill, &mut *out,
    );
    lay_down(
        count,
        &mut *ends,
        &mut *lengths,
        count - 2,
        &mut *trays,
        &mut *scratch,
        w,
        &*out,
        at,
        next,
    )
}

fn join(
    at: usize,
    next: usize,
    count: usize,
    s: &[u8],
    ends: &mut [usize],
    lengths: &mut [usize],
    trays: &mut [u8],
    scratch: &mut [u8],
    out: &mut [u8],
) -> Result<Worked, Refusal>
    requires { Ready 2 (memory ends.old lengths.old s.now trays.old scratch.old) count }
    ensures { RuleWorks steps.join at next (memory ends.old lengths.old s.now trays.old scratch.old) count out.new result
        (memory ends.new lengths.new s.now trays.new scratch.new) }
{
    unpack_two(count, &mut *ends, &*lengths, &mut *trays, &mut *scratch);
    let w = join_top(count, &*ends, &*lengths, s, &*trays, &mut *out);
    lay_down(
        count,
        &mut *ends,
        &mut *lengths,
        count - 2,
        &mut *trays,
        &mut *scratch,
        w,
        &*out,
        at,
        next,
    )
}

fn validate(
    spec: &[u8],
    at: usize,
    next: usize,
    count: usize,
    s: &[u8],
    ends: &mut [usize],
    lengths: &mut [usize],
    trays: &mut [u8],
    scratch: &mut [u8],
    out: &mut [u8],
) -> Result<Worked, Refusal>
    requires { Ready 1 (memory ends.old lengths.old s.now trays.old scratch.old) count × ((t : Ty) × (lone spec.now ≡ accepted t)) }
    ensures { (t : Ty) → lone spec.now ≡ accepted t
        → RuleWorks (steps.validating t) at next (memory ends.old lengths.old s.now trays.old scratch.old) count out.new result
        (memory ends.new lengths.new s.now trays.new scratch.new) }
{
    unpack_top(count, &mut *ends, &*lengths, &mut *trays, &mut *scratch);
    let w = validate_top(count, &*ends, &*lengths, s, &*trays, spec, &mut *out);
    lay_down(
        count,
        &mut *ends,
        &mut *lengths,
        count - 1,
        &mut *trays,
        &mut *scratch,
        w,
        &*out,
        at,
        next,
    )
}

// What a rule made of the types above the k lowest takes their place; a refusal of the rule names the step's mark. One of the buffer is
// no refusal of the sheet.
fn lay_down(
    count: usize,
    ends: &mut [usize],
    lengths: &mut [usize],
    k: usize,
    trays: &mut [u8],
    scratch: &mut [u8],
    w: Result<usize, Refusal>,
    out: &[u8],
    at: usize,
    next: usize,
) -> Result<Worked, Refusal>
    requires { ((s : List ℕ) × HasStack (memory ends.old lengths.old s trays.old scratch.old) count) × ((o : Outcome Ty) × Ruled count k w out.now o) }
    ensures { (s : List ℕ) → LaysDown (memory ends.old lengths.old s trays.old scratch.old) count k w out.now at next result
        (memory ends.new lengths.new s trays.new scratch.new) }
{
    match w {
        Ok(n) => {
            store(
                &mut *ends,
                &mut *lengths,
                k,
                &mut *trays,
                &mut *scratch,
                &out[..n],
            );
            Ok(Worked {
                at: next,
                count: k + 1,
            })
        }
        // The stack is left to the step until it has a longer buffer; its own place says so, since no step ends where it begins.
        Err(Refusal(Reason::TooShort, _)) if out.len() < MAX_BYTES => Ok(Worked { at, count }),
        Err(Refusal(reason, _)) => Err(Refusal(reason, at)),
    }
}

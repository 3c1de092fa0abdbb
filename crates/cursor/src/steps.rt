// One step as it is read, its rule left out: its mark, the stack, then its flag, type or name.
ghost use Rattle.std.specs.Prelude.{◌≡◌, ℕ, ◌≤◌};
ghost use Rattle.machine.specs.SheetLimits.{max_stack};
ghost use Rattle.machine.specs.Steps as steps;
ghost use Rattle.machine.specs.Steps.{a_put, a_pervading, a_validating, a_declaration, a_use};
ghost use Rattle.machine.specs.Sheet.{argument_from, step_from};
ghost use Rattle.cursor.specs.Answers.{opcode_for, StepIs};

use crate::Step;
use crate::flags::read_flag;
use crate::marks::{Operation, read_mark};
use crate::types::read_stretch;
use limits::MAX_STACK;
use limits::refusal::{Reason, Refusal};
use names::read_table_name;

// The step whose mark stands at a place, on a stack of that height.
#[tactic(auto, using(crate::proofs::StepLaws::row_is, crate::proofs::StepLaws::join_is), unfolding(machine::specs::Sheet::step_from))]
pub fn read_step(s: &[u8], at: usize, height: usize) -> Result<Step, Refusal>
    ensures { StepIs result s.now (step_from s.now height at at) }
{
    let (operation, next) = read_mark(s, at)?;
    let taken = takes(operation);
    if height < taken {
        return Err(Refusal(Reason::Underflow, at));
    }
    if MAX_STACK - lays(operation) < height - taken {
        return Err(Refusal(Reason::Overflow, at));
    }
    match operation {
        Operation::Put => read_put(s, next),
        Operation::Row => Ok(Step::Row { next }),
        Operation::Pervading => read_pervading(s, at, next),
        Operation::Join => Ok(Step::Join { next }),
        Operation::Validating => read_validating(s, next),
        Operation::Declaration => read_declaring(s, at, next),
        Operation::Use => read_using(s, at, next),
    }
}

// How many types a step takes off the stack.
fn takes(operation: Operation) -> usize
    ensures { result ≡ steps.takes (opcode_for operation) }
{
    match operation {
        Operation::Put => 0,
        Operation::Row => 1,
        Operation::Pervading => 2,
        Operation::Join => 2,
        Operation::Validating => 1,
        Operation::Declaration => 0,
        Operation::Use => 0,
    }
}

// How many types it lays down.
fn lays(operation: Operation) -> usize
    ensures { (result ≡ steps.lays (opcode_for operation)) × (result ≤ max_stack) }
{
    match operation {
        Operation::Put => 1,
        Operation::Row => 1,
        Operation::Pervading => 1,
        Operation::Join => 1,
        Operation::Validating => 1,
        Operation::Declaration => 0,
        Operation::Use => 1,
    }
}

// A put whose mark ends at a place: its type.
#[tactic(auto, unfolding(machine::specs::Sheet::argument_from))]
fn read_put(s: &[u8], start: usize) -> Result<Step, Refusal>
    ensures { (p : ℕ) → StepIs result s.now (argument_from s.now a_put p start) }
{
    let next = read_stretch(s, start)?;
    Ok(Step::Put { start, next })
}

// A pervading: its flag, whose refusal names the mark.
#[tactic(auto, unfolding(machine::specs::Sheet::argument_from))]
fn read_pervading(s: &[u8], mark: usize, at: usize) -> Result<Step, Refusal>
    ensures { StepIs result s.now (argument_from s.now a_pervading mark at) }
{
    let fills = read_flag(s, mark, at)?;
    Ok(Step::Pervading {
        top_fill: fills.top,
        below_fill: fills.below,
        next: fills.next,
    })
}

// A validation: the type to be validated by.
#[tactic(auto, unfolding(machine::specs::Sheet::argument_from))]
fn read_validating(s: &[u8], start: usize) -> Result<Step, Refusal>
    ensures { (p : ℕ) → StepIs result s.now (argument_from s.now a_validating p start) }
{
    let next = read_stretch(s, start)?;
    Ok(Step::Validating { start, next })
}

// A declaration: a name, whose refusal names the mark, then its type.
#[tactic(auto, unfolding(machine::specs::Sheet::argument_from))]
fn read_declaring(s: &[u8], mark: usize, name: usize) -> Result<Step, Refusal>
    ensures { StepIs result s.now (argument_from s.now a_declaration mark name) }
{
    let start = read_table_name(s, mark, name)?;
    let next = read_stretch(s, start)?;
    Ok(Step::Declaring { name, next })
}

// A use: a name, whose refusal names the mark.
#[tactic(auto, unfolding(machine::specs::Sheet::argument_from))]
fn read_using(s: &[u8], mark: usize, name: usize) -> Result<Step, Refusal>
    ensures { StepIs result s.now (argument_from s.now a_use mark name) }
{
    let next = read_table_name(s, mark, name)?;
    Ok(Step::Using { name, next })
}

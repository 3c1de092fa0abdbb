// The marks of the steps.
ghost use Rattle.std.specs.Prelude.{◌≡◌, ◌-◌, length};
ghost use Rattle.format.specs.Records.{mark};
ghost use Rattle.machine.specs.Steps.{opcodes};
ghost use Rattle.machine.specs.Sheet.{is_mark, opcode_in, opcode_from};
ghost use Rattle.cursor.specs.Answers.{marked_of, opcode_of};

use limits::marks::{DECLARE, JOIN, Mark, PERVADE, PUT, ROW, USE, VALIDATE};
use limits::refusal::{Reason, Refusal};

// Which step a mark begins.
#[derive(Clone, Copy, Debug, PartialEq, Eq)]
pub enum Operation {
    Put,
    Row,
    Pervading,
    Join,
    Validating,
    Declaration,
    Use,
}

// A mark and the place after it. Both bytes are there before the mark is judged.
#[tactic(auto, unfolding(machine::specs::Sheet::opcode_from, format::specs::Reader::byte))]
pub fn read_mark(s: &[u8], at: usize) -> Result<(Operation, usize), Refusal>
    ensures { marked_of result ≡ opcode_from s.now at at }
{
    if bytes_left(s, at) < 2 {
        return Err(Refusal(Reason::Ended, at));
    }
    match begun_by(s[at], s[at + 1]) {
        Some(operation) => Ok((operation, at + 2)),
        None => Err(Refusal(Reason::Unmarked, at)),
    }
}

// Which step two bytes begin, if they begin one.
fn begun_by(x: u8, y: u8) -> Option<Operation>
    ensures { opcode_of result ≡ opcode_in opcodes x y }
{
    if is_mark(PUT, x, y) {
        return Some(Operation::Put);
    }
    if is_mark(ROW, x, y) {
        return Some(Operation::Row);
    }
    if is_mark(PERVADE, x, y) {
        return Some(Operation::Pervading);
    }
    if is_mark(JOIN, x, y) {
        return Some(Operation::Join);
    }
    if is_mark(VALIDATE, x, y) {
        return Some(Operation::Validating);
    }
    if is_mark(DECLARE, x, y) {
        return Some(Operation::Declaration);
    }
    if is_mark(USE, x, y) {
        return Some(Operation::Use);
    }
    None
}

// From a place on, at the end or past it too.
fn bytes_left(s: &[u8], at: usize) -> usize
    ensures { result ≡ length s.now - at }
{
    s.len().saturating_sub(at)
}

fn is_mark(m: Mark, x: u8, y: u8) -> bool
    ensures { result ≡ is_mark (mark m.first m.second) x y }
{
    x == m.first && y == m.second
}

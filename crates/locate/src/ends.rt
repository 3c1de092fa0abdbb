// Where a step ends. What follows its mark is read, and nothing of it kept.
ghost use Rattle.std.specs.Prelude.{◌≡◌};
ghost use Rattle.format.specs.Records.{read_type};
ghost use Rattle.machine.specs.Steps.{a_pervading, a_declaration};
ghost use Rattle.machine.specs.Sheet.{name_from, argument_from};
ghost use Rattle.places.specs.Places.{bare_from};
ghost use Rattle.locate.specs.Answers.{end_of};

use cursor::{Operation, read_flag, read_mark};
use limits::{MAX_DEPTH, MAX_TYPES};
use names::read_table_name;
use record::read_type;

// The place after the step whose mark stands at a place; none if it could not be read to its end.
#[tactic(auto, unfolding(places::specs::Places::bare_from, machine::specs::Sheet::argument_from))]
pub fn step_end(s: &[u8], at: usize) -> Option<usize>
    ensures { result ≡ end_of (bare_from s.now at at) }
{
    let (operation, next) = read_mark(s, at).ok()?;
    match operation {
        Operation::Put => type_end(s, next),
        Operation::Row => Some(next),
        Operation::Pervading => flag_end(s, at, next),
        Operation::Join => Some(next),
        Operation::Validating => type_end(s, next),
        Operation::Declaration => declaration_end(s, at, next),
        Operation::Use => name_end(s, at, next),
    }
}

fn type_end(s: &[u8], at: usize) -> Option<usize>
    ensures { result ≡ end_of (read_type s.now at) }
{
    let (_, next) = read_type(s, at, MAX_DEPTH, MAX_TYPES).ok()?;
    Some(next)
}

#[tactic(auto, unfolding(machine::specs::Sheet::argument_from))]
fn flag_end(s: &[u8], mark: usize, at: usize) -> Option<usize>
    ensures { result ≡ end_of (argument_from s.now a_pervading mark at) }
{
    let fills = read_flag(s, mark, at).ok()?;
    Some(fills.next)
}

fn name_end(s: &[u8], mark: usize, at: usize) -> Option<usize>
    ensures { result ≡ end_of (name_from s.now mark at) }
{
    read_table_name(s, mark, at).ok()
}

// A name, then its type.
#[tactic(auto, unfolding(machine::specs::Sheet::argument_from))]
fn declaration_end(s: &[u8], mark: usize, at: usize) -> Option<usize>
    ensures { result ≡ end_of (argument_from s.now a_declaration mark at) }
{
    let start = name_end(s, mark, at)?;
    type_end(s, start)
}

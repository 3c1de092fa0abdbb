// What a call answers, as the answer that crosses to a host.
ghost use Rattle.std.specs.Prelude.{List, ◌≡◌, ℕ};
ghost use Rattle.limits.specs.Answers as answers;
ghost use Rattle.validation.specs.Separate.{neither};
ghost use Rattle.validate.specs.Answers.{input_of, separate_of};
ghost use Rattle.val.specs.Answers.{row_delivered};
ghost use Rattle.velgrodis.specs.Answers.{value, none_answer, told, answered, input_number, while_reading, validation_handed, validation_of, row_handed, rowed};
ghost use Rattle.velgrodis.specs.Crossing.{refused_as, order_crossed, compatibility_crossed, part_crossed, located_crossed, left_crossed, option_crossed, operation_number};

use crate::{
    Answer, CHECKED_TYPE, DECLARATION, JOIN, NEITHER, NO_INDEX, NO_MARK, NOTHING, PERVADE, PUT,
    REFUSED, ROW, SPEC, USE, VALIDATE, VALUE, Validation,
};
use cursor::Operation;
use limits::refusal::Refusal;
use locate::Located;
use run::Left;
use shape::Compatibility;
use std::cmp::Ordering;
use ty::Part;
use val::Row;
use validate::{Input, Unvalidated};

// What has an answer that says it.
pub trait Crosses {
    ghost use Rattle.velgrodis.specs.declared.Answer.{Answer};

    ghost crossed: { Self → Answer };

    fn cross(self) -> Answer
        ensures { result ≡ crossed self };
}

// That nothing was refused.
impl Crosses for () {
    ghost crossed = { λ _. value 0 0 };

    fn cross(self) -> Answer {
        give(0, 0)
    }
}

// How many bytes were written, or a place.
impl Crosses for usize {
    ghost crossed = { λ n. value n 0 };

    fn cross(self) -> Answer {
        give(self as u64, 0)
    }
}

// A count, or a size, all ones for unknown.
impl Crosses for u64 {
    ghost crossed = { λ n. value n 0 };

    fn cross(self) -> Answer {
        give(self, 0)
    }
}

impl Crosses for bool {
    ghost crossed = { told };

    fn cross(self) -> Answer {
        give(self as u64, 0)
    }
}

impl Crosses for Ordering {
    ghost crossed = { order_crossed };

    fn cross(self) -> Answer {
        match self {
            Ordering::Less => give(0, 0),
            Ordering::Equal => give(1, 0),
            Ordering::Greater => give(2, 0),
        }
    }
}

impl Crosses for Compatibility {
    ghost crossed = { compatibility_crossed };

    fn cross(self) -> Answer {
        match self {
            Compatibility::Yes => give(1, 0),
            Compatibility::FailsAt(i) => give(0, i as u64),
            Compatibility::CountsDiffer => give(0, NO_INDEX),
        }
    }
}

impl Crosses for Part {
    ghost crossed = { part_crossed };

    fn cross(self) -> Answer {
        give(self.start as u64, self.length as u64)
    }
}

impl Crosses for Left {
    ghost crossed = { left_crossed };

    fn cross(self) -> Answer {
        give(self.types as u64, self.bytes as u64)
    }
}

impl Crosses for Located {
    ghost crossed = { located_crossed };

    fn cross(self) -> Answer {
        give(self.number, number_of(self.operation))
    }
}

// The number of a mark, or NO_MARK.
fn number_of(operation: Option<Operation>) -> u64
    ensures { result ≡ operation_number operation }
{
    match operation {
        Some(Operation::Put) => PUT,
        Some(Operation::Row) => ROW,
        Some(Operation::Pervading) => PERVADE,
        Some(Operation::Join) => JOIN,
        Some(Operation::Validating) => VALIDATE,
        Some(Operation::Declaration) => DECLARATION,
        Some(Operation::Use) => USE,
        None => NO_MARK,
    }
}

impl Crosses for Refusal {
    ghost crossed = { refused_as };

    fn cross(self) -> Answer {
        let Refusal(reason, place) = self;
        Answer {
            kind: REFUSED,
            number: reason.number() as u64,
            place: place as u64,
            first: 0,
            second: 0,
        }
    }
}

impl<T: Crosses> Crosses for Option<T> {
    ghost crossed = { option_crossed T.crossed };

    fn cross(self) -> Answer {
        match self {
            Some(it) => it.cross(),
            None => Answer {
                kind: NOTHING,
                number: 0,
                place: 0,
                first: 0,
                second: 0,
            },
        }
    }
}

impl<T: Crosses> Crosses for Result<T, Refusal> {
    ghost crossed = { λ r. answered T.crossed (answers.told r) };

    fn cross(self) -> Answer {
        match self {
            Ok(it) => it.cross(),
            Err(refusal) => refusal.cross(),
        }
    }
}

fn give(first: u64, second: u64) -> Answer
    ensures { result ≡ value first second }
{
    Answer {
        kind: VALUE,
        number: 0,
        place: 0,
        first,
        second,
    }
}

// A row that is a number goes to `number`.
pub fn cross_row(row: Result<Row, Refusal>, number: &mut f64) -> Answer
    ensures { (buffer : List ℕ) → row_handed result number.new buffer ≡ rowed number.old (row_delivered row buffer) }
{
    match row {
        Ok(Row::Number(x)) => {
            *number = x;
            give(0, 1)
        }
        Ok(Row::Wrote(n)) => n.cross(),
        Err(refusal) => refusal.cross(),
    }
}

pub fn cross_validation(validated: Result<usize, Unvalidated>) -> Validation
    ensures { (buffer : List ℕ) → validation_handed result buffer ≡ validation_of (separate_of validated buffer) }
{
    match validated {
        Ok(n) => reading_neither(n.cross()),
        Err(unvalidated) => Validation {
            answer: unvalidated.refusal.cross(),
            reading: input_number(unvalidated.reading),
        },
    }
}

pub fn reading_neither(answer: Answer) -> Validation
    ensures { result ≡ while_reading neither answer }
{
    Validation {
        answer,
        reading: NEITHER,
    }
}

fn input_number(input: Input) -> u64
    ensures { result ≡ input_number (input_of input) }
{
    match input {
        Input::Spec => SPEC,
        Input::CheckedType => CHECKED_TYPE,
        Input::Neither => NEITHER,
    }
}

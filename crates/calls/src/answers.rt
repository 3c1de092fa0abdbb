// Answers, rendered as lines into the output, which is written in large pieces and has room for each.
use crate::fault::Fault;
use crate::parts::front;
use limits::UNKNOWN;
use limits::refusal::Refusal;
use std::cmp::Ordering;
use text::{put_bytes, put_decimal, put_hex};
use velgrodis::{
    Answer as Crossed, CHECKED_TYPE, DECLARATION, JOIN, NO_INDEX, NOTHING, PERVADE, PUT, ROW, SPEC,
    USE, VALIDATE, VALUE, Validation,
};

// What a request comes to. Bytes, and those of a stretch, a type, a text or a whole line, are the first of the result; a size is all ones
// for unknown; a step has its number and its mark; incompatible shapes have the index that is named; `reading` says which input a
// validation was reading.
#[derive(Clone, Copy)]
pub enum Reply {
    Bytes(usize),
    Stretch {
        start: usize,
        length: usize,
    },
    Step {
        number: u64,
        mark: u64,
    },
    Number(u64),
    Incompatible(u64),
    Size(u64),
    Bits(u64),
    Typed(usize),
    Text(usize),
    Line(usize),
    Order(Ordering),
    Nothing,
    Refused {
        number: u64,
        place: u64,
    },
    RefusedReading {
        number: u64,
        place: u64,
        reading: u64,
    },
}

// What a call wrote to its result.
pub(crate) fn delivered(a: Crossed) -> Reply {
    if a.kind == VALUE {
        return Reply::Bytes(a.first as usize);
    }
    without_value(a)
}

// What a validation wrote to its result, or its refusal with the input that was being read.
pub(crate) fn validated(v: Validation) -> Reply {
    let a = v.answer;
    if a.kind == VALUE {
        return Reply::Bytes(a.first as usize);
    }
    Reply::RefusedReading {
        number: a.number,
        place: a.place,
        reading: v.reading,
    }
}

// A number: a count, or 1 and 0 for yes and no.
pub(crate) fn counted(a: Crossed) -> Reply {
    if a.kind == VALUE {
        return Reply::Number(a.first);
    }
    without_value(a)
}

// The test of two shapes: a yes alone, a no with its index.
pub(crate) fn shapes_tested(a: Crossed) -> Reply {
    if a.kind == VALUE {
        if a.first == 0 {
            return Reply::Incompatible(a.second);
        }
        return Reply::Number(a.first);
    }
    without_value(a)
}

// The step that a place belongs to.
pub(crate) fn located(a: Crossed) -> Reply {
    if a.kind == VALUE {
        return Reply::Step {
            number: a.first,
            mark: a.second,
        };
    }
    without_value(a)
}

pub(crate) fn sized(a: Crossed) -> Reply {
    if a.kind == VALUE {
        return Reply::Size(a.first);
    }
    without_value(a)
}

// An order, which is 0 for less, 1 for the same and 2 for more.
pub(crate) fn compared(a: Crossed) -> Reply {
    if a.kind == VALUE {
        return Reply::Order(order_of(a.first));
    }
    without_value(a)
}

fn order_of(number: u64) -> Ordering {
    match number {
        0 => Ordering::Less,
        1 => Ordering::Equal,
        _ => Ordering::Greater,
    }
}

// The refusal, or none.
pub(crate) fn without_value(a: Crossed) -> Reply {
    if a.kind == NOTHING {
        return Reply::Nothing;
    }
    Reply::Refused {
        number: a.number,
        place: a.place,
    }
}

impl From<Refusal> for Reply {
    fn from(refusal: Refusal) -> Reply {
        let Refusal(reason, place) = refusal;
        Reply::Refused {
            number: u64::from(reason.number()),
            place: place as u64,
        }
    }
}

// One line, after the answers that stand in `out` up to `at`. Answers where it ends. Apart from what stands in the result a line takes
// less than 64 bytes; where there is no room for it, it is none.
pub(crate) fn say(
    answer: Result<Reply, Fault>,
    res: &[u8],
    out: &mut [u8],
    at: usize,
) -> Option<usize> {
    match answer {
        Ok(reply) => say_reply(reply, res, out, at),
        Err(fault) => say_fault(fault, out, at),
    }
}

fn say_reply(reply: Reply, res: &[u8], out: &mut [u8], at: usize) -> Option<usize> {
    match reply {
        Reply::Bytes(n) => say_bytes(front(res, n), out, at),
        Reply::Stretch { start, length } => say_stretch(start, front(res, length), out, at),
        Reply::Step { number, mark } => say_step(number, mark, out, at),
        Reply::Number(n) => say_number(n, out, at),
        Reply::Incompatible(index) => say_incompatible(index, out, at),
        Reply::Size(n) => say_size(n, out, at),
        Reply::Bits(bits) => say_bits(bits, out, at),
        Reply::Typed(n) => say_typed(front(res, n), out, at),
        Reply::Text(n) => say_text(front(res, n), out, at),
        Reply::Line(n) => say_line(front(res, n), out, at),
        Reply::Order(order) => say_order(order, out, at),
        Reply::Nothing => put_bytes(b"ok none\n", out, at),
        Reply::Refused { number, place } => say_refused(number, place, b"\n", out, at),
        Reply::RefusedReading {
            number,
            place,
            reading,
        } => say_reading(number, place, reading, out, at),
    }
}

fn say_bytes(bytes: &[u8], out: &mut [u8], at: usize) -> Option<usize> {
    let start = put_bytes(b"ok ", &mut *out, at)?;
    say_hex(bytes, out, start)
}

fn say_typed(bytes: &[u8], out: &mut [u8], at: usize) -> Option<usize> {
    let start = put_bytes(b"ok type ", &mut *out, at)?;
    say_hex(bytes, out, start)
}

fn say_stretch(start: usize, bytes: &[u8], out: &mut [u8], at: usize) -> Option<usize> {
    let second = put_number(b"ok ", start as u64, b" ", &mut *out, at)?;
    let third = put_number(b"", bytes.len() as u64, b" ", &mut *out, second)?;
    say_hex(bytes, out, third)
}

fn say_step(number: u64, mark: u64, out: &mut [u8], at: usize) -> Option<usize> {
    let second = put_number(b"ok ", number, b" ", &mut *out, at)?;
    say_line(mark_word(mark), out, second)
}

fn mark_word(mark: u64) -> &'static [u8] {
    match mark {
        PUT => b"put",
        ROW => b"row",
        PERVADE => b"pervade",
        JOIN => b"join",
        VALIDATE => b"validate",
        DECLARATION => b"declaration",
        USE => b"use",
        _ => b"none",
    }
}

// Bytes in hexadecimal, and the line's end.
fn say_hex(bytes: &[u8], out: &mut [u8], at: usize) -> Option<usize> {
    let end = put_hex(bytes, &mut *out, at)?;
    put_bytes(b"\n", out, end)
}

fn say_incompatible(index: u64, out: &mut [u8], at: usize) -> Option<usize> {
    if index == NO_INDEX {
        return put_bytes(b"ok 0 none\n", out, at);
    }
    put_number(b"ok 0 ", index, b"\n", out, at)
}

fn say_size(n: u64, out: &mut [u8], at: usize) -> Option<usize> {
    if n == UNKNOWN {
        return put_bytes(b"ok ?\n", out, at);
    }
    say_number(n, out, at)
}

fn say_number(n: u64, out: &mut [u8], at: usize) -> Option<usize> {
    put_number(b"ok ", n, b"\n", out, at)
}

fn say_bits(bits: u64, out: &mut [u8], at: usize) -> Option<usize> {
    let mut digits = [0u8; 16];
    let n = io::hex(bits, 16, &mut digits);
    let start = put_bytes(b"ok num ", &mut *out, at)?;
    say_line(&digits[..n], out, start)
}

fn say_text(text: &[u8], out: &mut [u8], at: usize) -> Option<usize> {
    let start = put_bytes(b"ok ", &mut *out, at)?;
    say_line(text, out, start)
}

// A text, and the line's end.
fn say_line(text: &[u8], out: &mut [u8], at: usize) -> Option<usize> {
    let end = put_bytes(text, &mut *out, at)?;
    put_bytes(b"\n", out, end)
}

fn say_order(order: Ordering, out: &mut [u8], at: usize) -> Option<usize> {
    match order {
        Ordering::Less => put_bytes(b"ok -1\n", out, at),
        Ordering::Equal => put_bytes(b"ok 0\n", out, at),
        Ordering::Greater => put_bytes(b"ok 1\n", out, at),
    }
}

fn say_refused(number: u64, place: u64, behind: &[u8], out: &mut [u8], at: usize) -> Option<usize> {
    let second = put_number(b"no ", number, b" ", &mut *out, at)?;
    put_number(b"", place, behind, out, second)
}

fn say_reading(number: u64, place: u64, reading: u64, out: &mut [u8], at: usize) -> Option<usize> {
    let third = say_refused(number, place, b" ", &mut *out, at)?;
    say_line(input_word(reading), out, third)
}

fn input_word(reading: u64) -> &'static [u8] {
    match reading {
        SPEC => b"spec",
        CHECKED_TYPE => b"type",
        _ => b"neither",
    }
}

fn say_fault(fault: Fault, out: &mut [u8], at: usize) -> Option<usize> {
    let start = put_bytes(b"bad ", &mut *out, at)?;
    say_line(fault.word(), out, start)
}

// A number between two texts.
fn put_number(before: &[u8], n: u64, behind: &[u8], out: &mut [u8], at: usize) -> Option<usize> {
    let digits = put_bytes(before, &mut *out, at)?;
    let end = put_decimal(n, &mut *out, digits)?;
    put_bytes(behind, out, end)
}

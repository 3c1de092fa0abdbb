// Every public call from a shell: one request to a line of standard input, one answer to a line of standard output.
// The program decides nothing: a line is taken apart, the call made, its outcome rendered.
#![tactic(auto)]

mod answers;
mod arguments;
mod fault;
mod lines;
mod no_argument;
mod number_list;
mod numbered;
mod numbers;
mod one_type;
mod parts;
mod pervading;
mod records;
mod requests;
mod sheets;
mod sided;
mod size_list;
mod sizes;
mod two_types;
mod values;
mod words;

use lines::{PIECE, Unheard, feed, last_line};
use parts::front;
use std::io::{Read, Write};
use streams::{Answered, Asked, complain, read_argument, read_some, say_version};

// Bytes of a line, its line feed not counted.
const MAX_LINE: usize = 131072;

// Bytes of a result: room for the longest answer, the list of a type's boxes.
const RESULT: usize = 163840;

// Bytes of an answer: two digits for each of the result, and less than 64 besides.
const ANSWER: usize = 2 * RESULT + 64;

// With an argument nothing is read, so that nobody takes its answers for those to a file named there.
fn main(rt: HostRuntime) {
    let mut err = rt.stderr();
    let asked = read_argument(&rt);
    match asked {
        Asked::Work => answer_input(&mut rt.stdin(), &mut rt.stdout(), &mut err),
        Asked::Help => explain(&mut err),
        Asked::Version => say_version(&mut err),
        Asked::Unknown => {
            complain(
                &mut err,
                b"calls: this argument is not known, and nothing was read.\n",
            );
            explain(&mut err);
        }
    }
}

fn explain<E: Write>(err: &mut E) {
    complain(
        &mut *err,
        b"calls takes no argument. It reads requests from standard input, one to a line, and prints an answer to each.\n",
    );
    complain(
        &mut *err,
        b"An answer is `ok` and what was asked for; `no`, the refusal's number and its place, for a validation also the input that was being read; or `bad` and why.\n",
    );
    complain(
        err,
        b"docs/FORMAT.md describes the requests, the bytes and the refusals.\n",
    );
}

// A line is held with one byte more than it may have, so that a longer one is told. The bytes that its arguments stand
// for take two digits each. Behind what waits to be written there is room for one answer more.
fn answer_input<R: Read, W: Write, E: Write>(from: &mut R, to: &mut W, err: &mut E) {
    let mut chunk = [0u8; 65536];
    let mut line = [0u8; MAX_LINE + 1];
    let mut input = [0u8; MAX_LINE / 2];
    let mut result = [0u8; RESULT];
    let mut out = [0u8; PIECE + ANSWER];
    let served = serve(
        from,
        to,
        &mut *err,
        &mut chunk,
        &mut line,
        &mut input,
        &mut result,
        &mut out,
    );
    if served.is_err() {
        complain(
            err,
            b"calls: answers could not be written to standard output, so no more is read.\n",
        );
    }
}

// Answers line by line until the input ends or nobody takes the answers. What was answered is written before more is read,
// so that whoever asks by hand is answered at once. At the input's end the last line may lack its line feed, but one that a failed read
// cut off is not answered. The loop has to be proved to end, and that the input ends cannot be: so it has as many turns as no input uses
// up.
fn serve<R: Read, W: Write, E: Write>(
    from: &mut R,
    to: &mut W,
    err: &mut E,
    chunk: &mut [u8],
    line: &mut [u8],
    input: &mut [u8],
    res: &mut [u8],
    out: &mut [u8],
) -> Result<(), Unheard> {
    let mut held = 0;
    for _ in 0..u64::MAX {
        match read_some(&mut *from, &mut *chunk) {
            Answered::Bytes(n) => {
                held = feed(
                    &mut *to,
                    &chunk[..n],
                    &mut *line,
                    held,
                    &mut *input,
                    &mut *res,
                    &mut *out,
                )?;
            }
            Answered::Nothing => return last_line(to, front(&*line, held), input, res, out),
            Answered::Failed => {
                complain_unread(err);
                return Ok(());
            }
        }
    }
    Ok(())
}

fn complain_unread<E: Write>(err: &mut E) {
    complain(
        err,
        b"calls: standard input could not be read any further; a line that was not read whole gets no answer.\n",
    );
}

// The sheet program whole: a sheet from standard input, what the check says of it to standard output, all else to standard error.
// It is a library so that several programs can be it, each run with an input of its own; the three streams and the argument are handed to it.
#![tactic(auto)]

use limits::{MAX_SHEET, RESULT_BYTES, SCRATCH_BYTES};
use printer::{TEXT, print_input};
use std::env::Env;
use std::io::{Read, Write};
use streams::{Asked, complain, read_argument, read_to_end, say_version, write_out};

// With an argument nothing is read, so that nobody takes its answer for that of a file named there.
pub fn run<R: Read, W: Write, E: Write>(env: &impl Env, input: &mut R, out: &mut W, err: &mut E) {
    let asked = read_argument(env);
    match asked {
        Asked::Work => check_input(input, out, err),
        Asked::Help => explain(err),
        Asked::Version => say_version(err),
        Asked::Unknown => {
            complain(
                &mut *err,
                b"sheet: this argument is not known, and nothing was read.\n",
            );
            explain(err);
        }
    }
}

fn explain<E: Write>(err: &mut E) {
    complain(
        &mut *err,
        b"sheet takes no argument. It reads a sheet of at most 49,152 bytes from standard input and checks it.\n",
    );
    complain(
        &mut *err,
        b"It prints `ok`, how many types are left and their bytes in all, then a line for each type from the bottom;\n",
    );
    complain(
        &mut *err,
        b"or `no`, the refusal's number and its place. If the sheet could not be read it prints nothing.\n",
    );
    complain(
        err,
        b"docs/FORMAT.md describes the bytes and the refusals.\n",
    );
}

// One byte more than a sheet may have is read, so that a longer one is refused.
fn check_input<R: Read, W: Write, E: Write>(input: &mut R, out: &mut W, err: &mut E) {
    let mut sheet = [0u8; MAX_SHEET + 1];
    let mut result = [0u8; RESULT_BYTES];
    let mut scratch = [0u8; SCRATCH_BYTES];
    let mut text = [0u8; TEXT];
    let read = read_to_end(input, &mut sheet);
    match print_input(&sheet, read, &mut result, &mut scratch, &mut text) {
        Some(n) => hand_out(out, err, &text[..n]),
        None => complain(
            err,
            b"sheet: standard input could not be read to its end, so nothing was checked.\n",
        ),
    }
}

fn hand_out<W: Write, E: Write>(out: &mut W, err: &mut E, text: &[u8]) {
    let written = write_out(out, text);
    if written.count < text.len() {
        complain(
            err,
            b"sheet: the answer could not be written whole to standard output.\n",
        );
    }
}

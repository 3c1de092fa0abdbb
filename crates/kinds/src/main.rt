// Prints the table of kinds (document 02, 2026-02) from the rules, one decimal number to a line.
#![tactic(auto)]

mod printing;
mod two_kinds;

use printing::{TEXT, put_table};
use std::io::Write;
use streams::{Asked, complain, read_argument, say_version, write_out};

fn main(rt: HostRuntime) {
    let mut out = rt.stdout();
    let mut err = rt.stderr();
    let asked = read_argument(&rt);
    match asked {
        Asked::Work => print_table(&mut out, &mut err),
        Asked::Help => explain(&mut err),
        Asked::Version => say_version(&mut err),
        Asked::Unknown => {
            complain(
                &mut err,
                b"kinds: this argument is not known, and nothing was printed.\n",
            );
            explain(&mut err);
        }
    }
}

fn explain<E: Write>(err: &mut E) {
    complain(
        &mut *err,
        b"kinds takes no argument and reads nothing. It prints the table of kinds, 300 numbers, one to a line.\n",
    );
    complain(err, b"docs/FORMAT.md lays it out as three squares.\n");
}

fn print_table<W: Write, E: Write>(out: &mut W, err: &mut E) {
    let mut text = [0u8; TEXT];
    let n = put_table(&mut text);
    let written = write_out(out, &text[..n]);
    if written.count < n {
        complain(
            err,
            b"kinds: the table could not be written whole to standard output.\n",
        );
    }
}

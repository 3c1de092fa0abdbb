// What the first argument asks for.
ghost use Rattle.streams.specs.Arguments.{AskedBy};

use crate::Asked;
use crate::writing::complain;
use check::same;
use limits::VERSION;
use std::env::{Env, FillError};
use std::io::Write;

// No word that is known is longer. Of a longer argument no byte is had, and that is no word that is known.
const MAX_ARGUMENT: usize = 16;

pub fn say_version<W: Write>(err: &mut W) {
    let mut digits = [0u8; 20];
    let n = io::decimal(VERSION, &mut digits);
    complain(&mut *err, b"velgrodis ");
    complain(&mut *err, &digits[..n]);
    complain(err, b"\n");
}

pub fn read_argument(env: &impl Env) -> Asked {
    let mut argument = [0u8; MAX_ARGUMENT];
    match env.arg(1, &mut argument) {
        Ok(n) => meant(&argument[..n]),
        Err(FillError::NotPresent) => Asked::Work,
        Err(FillError::TooLong) => Asked::Unknown,
    }
}

fn meant(argument: &[u8]) -> Asked
    ensures { AskedBy result argument.now }
{
    if same(argument, b"--help") {
        return Asked::Help;
    }
    if same(argument, b"--version") {
        return Asked::Version;
    }
    Asked::Unknown
}

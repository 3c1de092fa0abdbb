// What the words stand for that are a request's arguments.
use crate::fault::Fault;
use crate::parts::{front, part};
use limits::UNKNOWN;
use text::{decode_hex, parse_decimal};

// HEX: bytes, which are laid to the front of `input`.
pub(crate) fn hex<'a>(word: &[u8], input: &'a mut [u8]) -> Result<&'a [u8], Fault> {
    let end = decode(word, &mut *input, 0)?;
    Ok(front(input, end))
}

// HEX HEX: bytes and bytes, the second behind the first.
pub(crate) fn two_hex<'a>(
    first: &[u8],
    second: &[u8],
    input: &'a mut [u8],
) -> Result<(&'a [u8], &'a [u8]), Fault> {
    let middle = decode(first, &mut *input, 0)?;
    let end = decode(second, &mut *input, middle)?;
    Ok((front(input, middle), part(input, middle, end)))
}

// Bytes in hexadecimal, or a dash for none, into `input` from `at` on. Answers the place after them.
fn decode(word: &[u8], input: &mut [u8], at: usize) -> Result<usize, Fault> {
    match word {
        b"-" => Ok(at),
        _ => decode_hex(word, input, at).map_err(|_| Fault::Hex),
    }
}

// N: a decimal number.
pub(crate) fn decimal(word: &[u8]) -> Result<u64, Fault> {
    parse_decimal(word).ok_or(Fault::Number)
}

// The same, at most `most`.
pub(crate) fn decimal_up_to(most: u64, word: &[u8]) -> Result<u64, Fault> {
    parse_decimal(word)
        .filter(|&n| n <= most)
        .ok_or(Fault::Number)
}

// SIZE: a decimal number, or ? for unknown.
pub(crate) fn size(word: &[u8]) -> Result<u64, Fault> {
    match word {
        b"?" => Ok(UNKNOWN),
        _ => decimal(word),
    }
}

// Bytes and numbers as text: hexadecimal and decimal, parsed and rendered.
#![tactic(auto)]

mod parse;
mod render;

pub use parse::{decode_hex, parse_bits, parse_decimal};
pub use render::{put_bytes, put_decimal, put_hex};

// Why a text's bytes were not put into a buffer.
#[derive(Clone, Copy, Debug, PartialEq, Eq)]
pub enum DecodeError {
    NoRoom,
    NotHex,
}

// What a text stands for. Hexadecimal digits are read in either case.
ghost use Rattle.std.specs.Prelude.{◌≡◌, true, ◌+◌, ◌/◌, ◌≤◌, ◌<◌, length, IfSome};
ghost use Rattle.lent.specs.Over.{over};
ghost use Rattle.text.specs.Digits.{digit, are_digits, numeral, decimal, bits, unhex};
ghost use Rattle.text.specs.Place.{place_decoded};
ghost use Rattle.text.specs.Answers.{number_of, worth_of, decoding};

use crate::DecodeError;

// The value of a hexadecimal digit; none of a character that is no digit.
#[tactic(auto, unfolding(crate::specs::Digits::digit))]
fn hex_digit_value(c: u8) -> Option<u8>
    ensures worth { worth_of result ≡ digit c }
    ensures small { IfSome result (λ d. d < 16) }
{
    match c {
        b'0'..=b'9' => Some(c - b'0'),
        b'A'..=b'F' => Some(c - b'A' + 10),
        b'a'..=b'f' => Some(c - b'a' + 10),
        _ => None,
    }
}

// The bytes that a text of two digits each stands for, into `out` from `at` on. Answers the place after them; an error leaves `out` as lent.
#[tactic(auto, using(crate::proofs::PlaceLaws::decodes, crate::proofs::ParseLaws::decoded_lengths))]
pub fn decode_hex(text: &[u8], out: &mut [u8], at: usize) -> Result<usize, DecodeError>
    ensures { decoding result out.new ≡ place_decoded out.old at text.now }
{
    if text.len() % 2 != 0 || !are_digits(text) {
        return Err(DecodeError::NotHex);
    }
    let n = text.len() / 2;
    if out.len() < n || out.len() - n < at {
        return Err(DecodeError::NoRoom);
    }
    lay_decoded(text, &mut *out, at);
    Ok(at + n)
}

// A decimal number of at most 64 bits, which may have zeros before it.
pub fn parse_decimal(text: &[u8]) -> Option<u64>
    ensures { number_of result ≡ decimal text.now }
{
    if text.is_empty() {
        return None;
    }
    parse_number(text, 10)
}

// 64 bits as sixteen hexadecimal digits.
pub fn parse_bits(text: &[u8]) -> Option<u64>
    ensures { number_of result ≡ bits text.now }
{
    if text.len() != 16 {
        return None;
    }
    parse_number(text, 16)
}

#[tactic(auto, using(crate::proofs::ParseLaws::digits_more, crate::proofs::ParseLaws::number_more, crate::proofs::ParseLaws::digit_stops, crate::proofs::ParseLaws::number_stops, crate::proofs::ParseLaws::number_ends))]
fn parse_number(text: &[u8], base: u64) -> Option<u64>
    requires { (0 < base) × (base ≤ 16) }
    ensures { number_of result ≡ numeral base text.now }
{
    let mut n = 0u64;
    for &c in text {
        let d = u64::from(hex_digit_value(c)?);
        if base <= d {
            return None;
        }
        n = n.checked_mul(base)?.checked_add(d)?;
    }
    Some(n)
}

fn are_digits(text: &[u8]) -> bool
    ensures { result ≡ are_digits 16 text.now }
{
    text.iter().all(|&c| hex_digit_value(c).is_some())
}

#[tactic(auto, using(crate::proofs::ParseLaws::digit_below, crate::proofs::ParseLaws::decoded_more, crate::proofs::ParseLaws::decoded_lengths, lent::proofs::LayLaws::paste_all))]
fn lay_decoded(text: &[u8], out: &mut [u8], at: usize)
    requires text_value { are_digits 16 text.now ≡ true }
    requires text_in_bounds { at + length text.now / 2 ≤ length out.old }
    ensures { out.new ≡ over out.old at (unhex text.now) }
{
    for i in 0..text.len() / 2 {
        let high = hex_digit_value(text[2 * i]).unwrap_or(0);
        let low = hex_digit_value(text[2 * i + 1]).unwrap_or(0);
        out[at + i] = 16 * high + low;
    }
}

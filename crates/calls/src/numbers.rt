// BITS: an f64 by the sixteen hexadecimal digits of its bits. A NaN has many patterns and one value, which has the bits of
// `NAN_BITS` here.
use crate::fault::Fault;
use crate::parts::front;
use crate::words::is_space;
use text::parse_bits;

// A line holds no more: a number takes seventeen bytes with the space before it.
pub const MAX_NUMBERS: usize = 7710;

const SIGN: u64 = 9223372036854775808;

// The bits of infinity. With the sign aside, a NaN's are above.
const INFINITY_BITS: u64 = 9218868437227405312;

const NAN_BITS: u64 = 9221120237041090560;

// The words of a line behind the first few, as numbers, which are laid to the front of `list`.
pub(crate) fn parse_numbers<'a>(
    line: &[u8],
    skipped: usize,
    list: &'a mut [f64],
) -> Result<&'a [f64], Fault> {
    let mut count = 0;
    for word in line.split(is_space).skip(skipped) {
        let place = list.get_mut(count).ok_or(Fault::Hex)?;
        *place = parse_number(word)?;
        count += 1;
    }
    Ok(front(list, count))
}

pub(crate) fn parse_number(word: &[u8]) -> Result<f64, Fault> {
    let bits = parse_bits(word).ok_or(Fault::Hex)?;
    Ok(from_bits(bits))
}

#[tactic(auto, using(std::proofs::lemmas::Float::not_nan_f64_bits))]
fn from_bits(bits: u64) -> f64 {
    if INFINITY_BITS < bits % SIGN {
        return f64::NAN;
    }
    f64::from_bits(bits)
}

pub(crate) fn to_bits(x: f64) -> u64 {
    if x.is_nan() {
        return NAN_BITS;
    }
    f64::to_bits(x)
}

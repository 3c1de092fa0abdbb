// NAME BITS..: a request on a list of numbers.
use crate::answers::{Reply, delivered};
use crate::fault::Fault;
use crate::numbers::{MAX_NUMBERS, parse_numbers};
use crate::words::no_empty_word;
use velgrodis::vg_nums_scalar;

pub(crate) fn answered(line: &[u8], res: &mut [u8]) -> Result<Reply, Fault> {
    no_empty_word(line)?;
    let mut list = [0.0f64; MAX_NUMBERS];
    let numbers = parse_numbers(line, 1, &mut list)?;
    Ok(delivered(vg_nums_scalar(numbers, res)))
}

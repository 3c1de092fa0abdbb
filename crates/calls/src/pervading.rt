// NAME FLAG HEX HEX: the pervading of two types, bit 0 of the flag fills the first, bit 1 the second.
use crate::answers::{Reply, delivered};
use crate::arguments::{decimal_up_to, two_hex};
use crate::fault::Fault;
use crate::words::three_arguments;
use limits::MAX_FLAG;
use velgrodis::vg_pervade;

pub(crate) fn answered(line: &[u8], input: &mut [u8], res: &mut [u8]) -> Result<Reply, Fault> {
    let (flag, first, second) = three_arguments(line)?;
    let flag = decimal_up_to(u64::from(MAX_FLAG), flag)?;
    let (a, b) = two_hex(first, second, input)?;
    Ok(delivered(vg_pervade(flag, a, b, res)))
}

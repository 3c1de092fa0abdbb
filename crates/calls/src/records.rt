// NAME ROOM HEX: a record of a type, written to a result buffer of ROOM bytes.
use crate::answers::{Reply, delivered};
use crate::arguments::{decimal_up_to, hex};
use crate::fault::Fault;
use crate::parts::front_mut;
use crate::words::two_arguments;
use velgrodis::{vg_scalar_record, vg_shape_record};

const MAX_ROOM: u64 = 65536;

#[derive(Clone, Copy)]
pub(crate) enum Request {
    WriteShape,
    WriteScalar,
}

pub(crate) fn named(name: &[u8]) -> Option<Request> {
    match name {
        b"write_shape" => Some(Request::WriteShape),
        b"write_scalar" => Some(Request::WriteScalar),
        _ => None,
    }
}

pub(crate) fn answered(
    request: Request,
    line: &[u8],
    input: &mut [u8],
    res: &mut [u8],
) -> Result<Reply, Fault> {
    let (room, word) = two_arguments(line)?;
    let room = decimal_up_to(MAX_ROOM, room)?;
    let ty = hex(word, input)?;
    Ok(call(request, ty, front_mut(res, room as usize)))
}

fn call(request: Request, ty: &[u8], res: &mut [u8]) -> Reply {
    match request {
        Request::WriteShape => delivered(vg_shape_record(ty, res)),
        Request::WriteScalar => delivered(vg_scalar_record(ty, res)),
    }
}

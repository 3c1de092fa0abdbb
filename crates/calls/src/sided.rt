// NAME SIDE HEX HEX: requests that hold a type to a spec, for a side or none.
use crate::answers::{Reply, validated};
use crate::arguments::two_hex;
use crate::fault::Fault;
use crate::words::three_arguments;
use velgrodis::{vg_check_shape, vg_validate};

#[derive(Clone, Copy)]
pub(crate) enum Request {
    Validate,
    CheckShape,
}

pub(crate) fn named(name: &[u8]) -> Option<Request> {
    match name {
        b"validate" => Some(Request::Validate),
        b"check_shape" => Some(Request::CheckShape),
        _ => None,
    }
}

pub(crate) fn answered(
    request: Request,
    line: &[u8],
    input: &mut [u8],
    res: &mut [u8],
) -> Result<Reply, Fault> {
    let (side, first, second) = three_arguments(line)?;
    let side = side_number(side)?;
    let (spec, ty) = two_hex(first, second, input)?;
    Ok(call(request, side, spec, ty, res))
}

// The number that a host says a side by.
fn side_number(word: &[u8]) -> Result<u64, Fault> {
    match word {
        b"none" => Ok(0),
        b"left" => Ok(1),
        b"right" => Ok(2),
        _ => Err(Fault::Side),
    }
}

fn call(request: Request, side: u64, spec: &[u8], ty: &[u8], res: &mut [u8]) -> Reply {
    match request {
        Request::Validate => validated(vg_validate(side, spec, ty, res)),
        Request::CheckShape => validated(vg_check_shape(side, spec, ty, res)),
    }
}

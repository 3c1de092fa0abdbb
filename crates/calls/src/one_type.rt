// NAME HEX: requests on one type.
use crate::answers::{Reply, counted, delivered, sized, without_value};
use crate::arguments::hex;
use crate::fault::Fault;
use crate::words::one_argument;
use lent::hand_over;
use velgrodis::{
    VALUE, vg_as_boxes, vg_first_row, vg_last_row, vg_rank, vg_read, vg_row, vg_row_count,
    vg_row_shape, vg_shape_is_any, vg_shape_is_scalar, vg_type_length, vg_unboxed, vg_unrefine,
};

#[derive(Clone, Copy)]
pub(crate) enum Request {
    Read,
    RowShape,
    ShapeIsAny,
    ShapeIsScalar,
    RowCount,
    Rank,
    Row,
    FirstRow,
    LastRow,
    Unboxed,
    AsBoxes,
    Unrefine,
    TypeLength,
}

pub(crate) fn named(name: &[u8]) -> Option<Request> {
    match name {
        b"read" => Some(Request::Read),
        b"row_shape" => Some(Request::RowShape),
        b"shape_is_any" => Some(Request::ShapeIsAny),
        b"shape_is_scalar" => Some(Request::ShapeIsScalar),
        b"row_count" => Some(Request::RowCount),
        b"rank" => Some(Request::Rank),
        b"row" => Some(Request::Row),
        b"first_row" => Some(Request::FirstRow),
        b"last_row" => Some(Request::LastRow),
        b"unboxed" => Some(Request::Unboxed),
        b"as_boxes" => Some(Request::AsBoxes),
        b"unrefine" => Some(Request::Unrefine),
        b"type_length" => Some(Request::TypeLength),
        _ => None,
    }
}

pub(crate) fn answered(
    request: Request,
    line: &[u8],
    input: &mut [u8],
    res: &mut [u8],
) -> Result<Reply, Fault> {
    let word = one_argument(line)?;
    let ty = hex(word, input)?;
    Ok(call(request, ty, res))
}

fn call(request: Request, ty: &[u8], res: &mut [u8]) -> Reply {
    match request {
        Request::Read => read(ty, res),
        Request::RowShape => delivered(vg_row_shape(ty, res)),
        Request::ShapeIsAny => counted(vg_shape_is_any(ty)),
        Request::ShapeIsScalar => counted(vg_shape_is_scalar(ty)),
        Request::RowCount => sized(vg_row_count(ty)),
        Request::Rank => counted(vg_rank(ty)),
        Request::Row => delivered(vg_row(ty, res)),
        Request::FirstRow => delivered(vg_first_row(ty, res)),
        Request::LastRow => delivered(vg_last_row(ty, res)),
        Request::Unboxed => delivered(vg_unboxed(ty, res)),
        Request::AsBoxes => delivered(vg_as_boxes(ty, res)),
        Request::Unrefine => delivered(vg_unrefine(ty, res)),
        Request::TypeLength => counted(vg_type_length(ty)),
    }
}

// A type that is read is answered as it stands.
fn read(ty: &[u8], res: &mut [u8]) -> Reply {
    let answer = vg_read(ty);
    if answer.kind == VALUE {
        return match hand_over(ty, res) {
            Ok(length) => Reply::Bytes(length),
            Err(refusal) => Reply::from(refusal),
        };
    }
    without_value(answer)
}

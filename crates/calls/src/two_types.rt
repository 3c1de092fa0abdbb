// NAME HEX HEX: requests on two types.
use crate::answers::{Reply, compared, counted, delivered, shapes_tested, validated};
use crate::arguments::two_hex;
use crate::fault::Fault;
use crate::words::two_arguments;
use velgrodis::{
    vg_check_scalar, vg_compare, vg_compatible_scalars, vg_compatible_shapes,
    vg_compatible_with_boxes, vg_join, vg_join_shapes, vg_merge, vg_superset, vg_union,
};

#[derive(Clone, Copy)]
pub(crate) enum Request {
    Merge,
    JoinShapes,
    CompatibleShapes,
    Superset,
    CompatibleScalars,
    CompatibleWithBoxes,
    Compare,
    Union,
    Join,
    CheckScalar,
}

pub(crate) fn named(name: &[u8]) -> Option<Request> {
    match name {
        b"merge" => Some(Request::Merge),
        b"join_shapes" => Some(Request::JoinShapes),
        b"compatible_shapes" => Some(Request::CompatibleShapes),
        b"superset" => Some(Request::Superset),
        b"compatible_scalars" => Some(Request::CompatibleScalars),
        b"compatible_with_boxes" => Some(Request::CompatibleWithBoxes),
        b"compare" => Some(Request::Compare),
        b"union" => Some(Request::Union),
        b"join" => Some(Request::Join),
        b"check_scalar" => Some(Request::CheckScalar),
        _ => None,
    }
}

pub(crate) fn answered(
    request: Request,
    line: &[u8],
    input: &mut [u8],
    res: &mut [u8],
) -> Result<Reply, Fault> {
    let (first, second) = two_arguments(line)?;
    let (a, b) = two_hex(first, second, input)?;
    Ok(call(request, a, b, res))
}

fn call(request: Request, a: &[u8], b: &[u8], res: &mut [u8]) -> Reply {
    match request {
        Request::Merge => delivered(vg_merge(a, b, res)),
        Request::JoinShapes => delivered(vg_join_shapes(a, b, res)),
        Request::CompatibleShapes => shapes_tested(vg_compatible_shapes(a, b)),
        Request::Superset => counted(vg_superset(a, b)),
        Request::CompatibleScalars => counted(vg_compatible_scalars(a, b)),
        Request::CompatibleWithBoxes => counted(vg_compatible_with_boxes(a, b)),
        Request::Compare => compared(vg_compare(a, b)),
        Request::Union => delivered(vg_union(a, b, res)),
        Request::Join => delivered(vg_join(a, b, res)),
        Request::CheckScalar => validated(vg_check_scalar(a, b, res)),
    }
}

// NAME SIZE SIZE: requests on two sizes.
use crate::answers::{Reply, compared, counted, sized};
use crate::arguments::size;
use crate::fault::Fault;
use crate::words::two_arguments;
use velgrodis::{
    vg_dim_cmp, vg_dim_cmp_defined, vg_dim_compatible, vg_dim_join, vg_dim_max,
    vg_dim_row_compatible,
};

#[derive(Clone, Copy)]
pub(crate) enum Request {
    Cmp,
    CmpDefined,
    Max,
    Join,
    Compatible,
    RowCompatible,
}

pub(crate) fn named(name: &[u8]) -> Option<Request> {
    match name {
        b"dim_cmp" => Some(Request::Cmp),
        b"dim_cmp_defined" => Some(Request::CmpDefined),
        b"dim_max" => Some(Request::Max),
        b"dim_join" => Some(Request::Join),
        b"dim_compatible" => Some(Request::Compatible),
        b"dim_row_compatible" => Some(Request::RowCompatible),
        _ => None,
    }
}

pub(crate) fn answered(request: Request, line: &[u8]) -> Result<Reply, Fault> {
    let (first, second) = two_arguments(line)?;
    let a = size(first)?;
    let b = size(second)?;
    Ok(call(request, a, b))
}

fn call(request: Request, a: u64, b: u64) -> Reply {
    match request {
        Request::Cmp => compared(vg_dim_cmp(a, b)),
        Request::CmpDefined => compared(vg_dim_cmp_defined(a, b)),
        Request::Max => sized(vg_dim_max(a, b)),
        Request::Join => sized(vg_dim_join(a, b)),
        Request::Compatible => counted(vg_dim_compatible(a, b)),
        Request::RowCompatible => counted(vg_dim_row_compatible(a, b)),
    }
}

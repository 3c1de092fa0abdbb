// NAME alone: the table of kinds, and the library's version.
use crate::answers::{Reply, delivered};
use crate::fault::Fault;
use crate::words;
use velgrodis::{vg_kinds, vg_version};

#[derive(Clone, Copy)]
pub(crate) enum Request {
    Kinds,
    Version,
}

pub(crate) fn named(name: &[u8]) -> Option<Request> {
    match name {
        b"kinds" => Some(Request::Kinds),
        b"version" => Some(Request::Version),
        _ => None,
    }
}

pub(crate) fn answered(request: Request, line: &[u8], res: &mut [u8]) -> Result<Reply, Fault> {
    words::no_argument(line)?;
    Ok(call(request, res))
}

fn call(request: Request, res: &mut [u8]) -> Reply {
    match request {
        Request::Kinds => delivered(vg_kinds(res)),
        Request::Version => Reply::Number(vg_version()),
    }
}

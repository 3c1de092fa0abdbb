// NAME N HEX: requests with a number on one type, and with a place of a sheet.
use crate::answers::{Reply, delivered, located, without_value};
use crate::arguments::{decimal, hex};
use crate::fault::Fault;
use crate::parts::part;
use crate::words::two_arguments;
use lent::hand_over;
use velgrodis::{VALUE, vg_field, vg_find_step, vg_nth_row};

#[derive(Clone, Copy)]
pub(crate) enum Request {
    NthRow,
    Field,
    FindStep,
}

pub(crate) fn named(name: &[u8]) -> Option<Request> {
    match name {
        b"nth_row" => Some(Request::NthRow),
        b"field" => Some(Request::Field),
        b"find_step" => Some(Request::FindStep),
        _ => None,
    }
}

pub(crate) fn answered(
    request: Request,
    line: &[u8],
    input: &mut [u8],
    res: &mut [u8],
) -> Result<Reply, Fault> {
    let (number, word) = two_arguments(line)?;
    let n = decimal(number)?;
    let bytes = hex(word, input)?;
    Ok(call(request, n, bytes, res))
}

fn call(request: Request, n: u64, bytes: &[u8], res: &mut [u8]) -> Reply {
    match request {
        Request::NthRow => delivered(vg_nth_row(bytes, n, res)),
        Request::Field => field(n, bytes, res),
        Request::FindStep => located(vg_find_step(bytes, n)),
    }
}

// A field is answered by its place and its bytes.
fn field(n: u64, ty: &[u8], res: &mut [u8]) -> Reply {
    let answer = vg_field(ty, n);
    if answer.kind == VALUE {
        let start = answer.first as usize;
        let end = start.saturating_add(answer.second as usize);
        return match hand_over(part(ty, start, end), res) {
            Ok(length) => Reply::Stretch { start, length },
            Err(refusal) => Reply::from(refusal),
        };
    }
    without_value(answer)
}

// NAME HEX and NAME SCRATCH RESULT HEX: a sheet, checked with buffers that suffice or with buffers of these lengths. The answer
// is what the program `sheet` prints, its lines joined by a bar.
use crate::answers::Reply;
use crate::arguments::{decimal_up_to, hex};
use crate::fault::Fault;
use crate::parts::front_mut;
use crate::words::{one_argument, three_arguments};
use limits::refusal::{Reason, Refusal};
use limits::{MAX_SHEET, RESULT_BYTES, SCRATCH_BYTES};
use printer::{CALL_TEXT, put_call};

const MAX_ROOM: u64 = 65536;

#[derive(Clone, Copy)]
pub(crate) enum Request {
    Sheet,
    SheetCall,
}

pub(crate) fn named(name: &[u8]) -> Option<Request> {
    match name {
        b"sheet" => Some(Request::Sheet),
        b"sheet_call" => Some(Request::SheetCall),
        _ => None,
    }
}

pub(crate) fn answered(
    request: Request,
    line: &[u8],
    input: &mut [u8],
    res: &mut [u8],
) -> Result<Reply, Fault> {
    match request {
        Request::Sheet => whole(line, input, res),
        Request::SheetCall => lent(line, input, res),
    }
}

fn whole(line: &[u8], input: &mut [u8], res: &mut [u8]) -> Result<Reply, Fault> {
    let word = one_argument(line)?;
    let sheet = hex(word, input)?;
    if MAX_SHEET < sheet.len() {
        return Ok(Reply::from(Refusal(Reason::TooShort, 0)));
    }
    call(sheet, SCRATCH_BYTES, RESULT_BYTES, res)
}

fn lent(line: &[u8], input: &mut [u8], res: &mut [u8]) -> Result<Reply, Fault> {
    let (scratch, room, word) = three_arguments(line)?;
    let scratch = decimal_up_to(MAX_ROOM, scratch)?;
    let room = decimal_up_to(MAX_ROOM, room)?;
    let sheet = hex(word, input)?;
    call(sheet, scratch as usize, room as usize, res)
}

fn call(sheet: &[u8], scratch: usize, room: usize, text: &mut [u8]) -> Result<Reply, Fault> {
    if text.len() < CALL_TEXT {
        return Err(Fault::Request);
    }
    let mut lent = [0u8; 65536];
    let mut types = [0u8; 65536];
    let length = put_call(
        sheet,
        front_mut(&mut types, room),
        front_mut(&mut lent, scratch),
        b" | ",
        text,
    );
    Ok(Reply::Line(length))
}

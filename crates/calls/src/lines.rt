// Lines, put together from the pieces in which the input comes.
use crate::answers::say;
use crate::parts::front;
use crate::requests::answered;
use std::io::Write;
use streams::write_out;

// Answers wait until they have so many bytes or more is to be read.
pub const PIECE: usize = 65536;

// That answers could not be written, so that nobody takes those to come.
#[derive(Clone, Copy)]
pub struct Unheard;

// Answers the lines that end in a piece, and holds the rest of it behind what is held of the line under way. Answers how much of a line
// is held then.
pub(crate) fn feed<W: Write>(
    to: &mut W,
    piece: &[u8],
    line: &mut [u8],
    held: usize,
    input: &mut [u8],
    res: &mut [u8],
    out: &mut [u8],
) -> Result<usize, Unheard> {
    let mut held = held;
    let mut end = 0;
    for part in piece.split_inclusive(|&byte| byte == b'\n') {
        match part.strip_suffix(b"\n") {
            Some(text) => {
                let length = hold(text, &mut *line, held);
                held = 0;
                end = answer(
                    front(&*line, length),
                    &mut *input,
                    &mut *res,
                    &mut *out,
                    end,
                )?;
                if PIECE <= end {
                    flush(&mut *to, &*out, end)?;
                    end = 0;
                }
            }
            None => held = hold(part, &mut *line, held),
        }
    }
    flush(to, &*out, end)?;
    Ok(held)
}

// The last line may lack its line feed.
pub(crate) fn last_line<W: Write>(
    to: &mut W,
    line: &[u8],
    input: &mut [u8],
    res: &mut [u8],
    out: &mut [u8],
) -> Result<(), Unheard> {
    if line.is_empty() {
        return Ok(());
    }
    let end = answer(line, input, res, &mut *out, 0)?;
    flush(to, &*out, end)
}

// Answers a line behind the answers that wait up to `end`, and where its own ends. One without room there cannot be written either.
fn answer(
    line: &[u8],
    input: &mut [u8],
    res: &mut [u8],
    out: &mut [u8],
    end: usize,
) -> Result<usize, Unheard> {
    let reply = answered(line, input, &mut *res);
    say(reply, &*res, out, end).ok_or(Unheard)
}

// Writes the answers that wait up to `end`, all of them.
fn flush<W: Write>(to: &mut W, out: &[u8], end: usize) -> Result<(), Unheard> {
    let text = front(out, end);
    let written = write_out(to, text);
    if written.count < text.len() {
        return Err(Unheard);
    }
    Ok(())
}

// Bytes behind those that are held of a line. A line that is longer than the room for it is held as far as that goes. Answers how much is
// held then.
fn hold(bytes: &[u8], line: &mut [u8], held: usize) -> usize {
    let Some(room) = line.get_mut(held..) else {
        return held;
    };
    let count = bytes.len().min(room.len());
    room[..count].copy_from_slice(&bytes[..count]);
    held + count
}

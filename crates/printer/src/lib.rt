// What the program `sheet` prints of the input that it read, put into a buffer, so that the program only reads and writes.
#![tactic(auto)]

ghost use Rattle.std.specs.Prelude.{◌≡◌, ◌≤◌, ◌<◌, length};
ghost use Rattle.machine.specs.Call.{sheet_call};
ghost use Rattle.machine.specs.SheetLimits.{max_stack, scratch_bytes, result_bytes, program_bytes};
ghost use Rattle.printer.specs.Input.{Prints, Inside};
ghost use Rattle.report.specs.Laid.{Laid};
ghost use Rattle.report.specs.Report.{line_feed, reported, call_outcome, program_outcome, printed, buffers, buffers_of, program_call};
ghost use Rattle.report.specs.Room.{text_room, print_room};
ghost use Rattle.streams.specs.Streams.{ToTheEnd};

use limits::refusal::{Reason, Refusal};
use limits::{MAX_SHEET, MAX_STACK, RESULT_BYTES};
use report::{HEAD_ROOM, LINE_ROOM, put, put_left, put_refusal};
use run::measure_sheet;
use stack::clear;
use streams::{Answered, Moved};

// Bytes that suffice for the text of any sheet, whose lines end in a line feed each: the first line, what each type's line has beside its
// bytes, two digits for each byte of as many types as can be left, and the last line feed.
pub const TEXT: usize = HEAD_ROOM + MAX_STACK * (1 + LINE_ROOM) + 2 * RESULT_BYTES + 1;

// Bytes that suffice for the text of a call, where up to three bytes stand between two lines.
pub const CALL_TEXT: usize = HEAD_ROOM + MAX_STACK * (3 + LINE_ROOM) + 2 * RESULT_BYTES;

// The text of what reading to the end left in a buffer, told by what that answered: so many bytes, and what the last read said. The
// buffer is longer than a sheet may be, so that a longer one is told. Answers how many bytes the text has; none, where a read failed.
pub fn print_input(
    buf: &[u8],
    read: Moved,
    res: &mut [u8],
    scratch: &mut [u8],
    out: &mut [u8],
) -> Option<usize>
    requires program_bytes_in_bounds { program_bytes < length buf.now }
    requires to_the_end { ToTheEnd read.count read.last (length buf.now) }
    requires max_stack_in_bounds { result_bytes max_stack ≤ length res.old }
    requires scratch_bytes_in_bounds { scratch_bytes ≤ length scratch.old }
    requires print_room_in_bounds { print_room ≤ length out.old }
    ensures prints { Prints read.last buf.now read.count result res.old res.new scratch.old scratch.new out.old out.new }
    ensures inside { Inside result out.new }
{
    match read.last {
        Answered::Failed => None,
        _ => Some(print_sheet(&buf[..read.count], res, scratch, out)),
    }
}

// The text of a sheet, to the front of `out`. Answers how many bytes it has.
#[tactic(auto, using(crate::proofs::ProgramLaws::reported_room))]
fn print_sheet(sheet: &[u8], res: &mut [u8], scratch: &mut [u8], out: &mut [u8]) -> usize
    requires max_stack_in_bounds { result_bytes max_stack ≤ length res.old }
    requires scratch_bytes_in_bounds { scratch_bytes ≤ length scratch.old }
    requires print_room_in_bounds { print_room ≤ length out.old }
    ensures laid { Laid result 0 out.old out.new (printed sheet.now) × (result ≤ length out.new) }
    ensures scratch_after { buffers res.new scratch.new ≡ buffers_of (program_call sheet.now res.old scratch.old) }
{
    let end = put_outcome(sheet, res, scratch, &mut *out);
    put(b"\n", out, end)
}

// The same without the last line feed.
#[tactic(auto, using(crate::proofs::ProgramLaws::outcomes))]
fn put_outcome(sheet: &[u8], res: &mut [u8], scratch: &mut [u8], out: &mut [u8]) -> usize
    requires max_stack_in_bounds { result_bytes max_stack ≤ length res.old }
    requires scratch_bytes_in_bounds { scratch_bytes ≤ length scratch.old }
    requires print_room_in_bounds { print_room ≤ length out.old }
    ensures laid { Laid result 0 out.old out.new (reported line_feed (program_outcome sheet.now)) }
    ensures scratch_after { buffers res.new scratch.new ≡ buffers_of (program_call sheet.now res.old scratch.old) }
{
    if MAX_SHEET < sheet.len() {
        clear(scratch);
        return put_refusal(Reason::TooShort.number() as u64, 0, out, 0);
    }
    put_call(sheet, res, scratch, b"\n", out)
}

// What a call with these buffers answers, to the front of `out`, with `between` between two lines. Answers how many bytes it has.
#[tactic(auto, using(crate::proofs::CallLaws::calling))]
pub fn put_call(
    sheet: &[u8],
    res: &mut [u8],
    scratch: &mut [u8],
    between: &[u8],
    out: &mut [u8],
) -> usize
    requires { text_room (length between.now) max_stack (result_bytes max_stack) ≤ length out.old }
    ensures laid { Laid result 0 out.old out.new (reported between.now (call_outcome sheet.now (length res.old) (length scratch.old))) }
    ensures scratch_after { buffers res.new scratch.new ≡ buffers_of (sheet_call sheet.now res.old scratch.old) }
{
    let mut lengths = [0usize; MAX_STACK];
    match measure_sheet(sheet, &mut *res, scratch, &mut lengths) {
        Ok(left) => put_left(left.types, &lengths, &res[..left.bytes], between, out, 0),
        Err(Refusal(reason, place)) => put_refusal(reason.number() as u64, place as u64, out, 0),
    }
}

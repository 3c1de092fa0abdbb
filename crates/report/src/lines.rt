// The lines of a report, each put into a buffer from a place on, where there is room for it. Each answers the place after it.
ghost use Rattle.std.specs.Prelude.{◌≡◌, List, ℕ, ◌+◌, ◌*◌, ◌≤◌, length};
ghost use Rattle.model.specs.Types.{Ty};
ghost use Rattle.format.specs.Outcome.{accepted, refused};
ghost use Rattle.report.specs.Laid.{Laid};
ghost use Rattle.report.specs.Left.{LeftIs, Left};
ghost use Rattle.report.specs.Report.{headed, type_line, type_lines, reported};
ghost use Rattle.report.specs.Room.{head_room, line_room, lines_room, text_room};

use crate::parts::{put, put_hex, put_number};

// A refusal.
#[tactic(auto, unfolding(crate::specs::Report::reported))]
pub fn put_refusal(number: u64, place: u64, out: &mut [u8], at: usize) -> usize
    requires { at + head_room ≤ length out.old }
    ensures { (between : List ℕ) → Laid result at out.old out.new (reported between (refused number place)) }
{
    put_head(b"no ", number, place, out, at)
}

// The types left, whose records stand one after the other in `bytes`, each of its length.
#[tactic(auto, using(crate::proofs::TextLaws::length_headed))]
pub fn put_left(
    types: usize,
    lengths: &[usize],
    bytes: &[u8],
    between: &[u8],
    out: &mut [u8],
    at: usize,
) -> usize
    requires left { Left bytes.now lengths.now types }
    requires bytes_in_bounds { at + text_room (length between.now) types (length bytes.now) ≤ length out.old }
    ensures { (ts : List Ty) → LeftIs bytes.now lengths.now types ts
        → Laid result at out.old out.new (reported between.now (accepted ts)) }
{
    let next = put_head(b"ok ", types as u64, bytes.len() as u64, &mut *out, at);
    put_types(types, lengths, bytes, between, out, next)
}

// A word and two numbers.
#[tactic(auto, using(crate::proofs::TextLaws::length_decimal))]
fn put_head(word: &[u8], m: u64, n: u64, out: &mut [u8], at: usize) -> usize
    requires word_len { length word.now ≡ 3 }
    requires head_room_in_bounds { at + head_room ≤ length out.old }
    ensures { Laid result at out.old out.new (headed word.now m n) }
{
    let first = put(word, &mut *out, at);
    let space = put_number(m, &mut *out, first);
    let second = put(b" ", &mut *out, space);
    put_number(n, out, second)
}

// Type by type, from the bottom.
#[tactic(auto, using(crate::proofs::LineLaws::showing))]
fn put_types(
    types: usize,
    lengths: &[usize],
    bytes: &[u8],
    between: &[u8],
    out: &mut [u8],
    at: usize,
) -> usize
    requires left { Left bytes.now lengths.now types }
    requires bytes_in_bounds { at + lines_room (length between.now) types (length bytes.now) ≤ length out.old }
    ensures { (ts : List Ty) → LeftIs bytes.now lengths.now types ts
        → Laid result at out.old out.new (type_lines between.now 0 ts) }
{
    let mut from = 0;
    let mut end = at;
    for i in 0..types {
        let next = from + lengths[i];
        end = put_type(i, &bytes[from..next], between, &mut *out, end);
        from = next;
    }
    end
}

// A type's place from the bottom and its bytes.
#[tactic(auto, using(crate::proofs::TextLaws::length_decimal))]
fn put_type(place: usize, bytes: &[u8], between: &[u8], out: &mut [u8], at: usize) -> usize
    requires { at + line_room (length between.now) (length bytes.now) ≤ length out.old }
    ensures { Laid result at out.old out.new (type_line between.now place bytes.now) }
{
    let first = put(between, &mut *out, at);
    let space = put_number(place as u64, &mut *out, first);
    let second = put(b" ", &mut *out, space);
    put_hex(bytes, out, second)
}

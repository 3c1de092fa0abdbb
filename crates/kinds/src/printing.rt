// The table as text.
ghost use Rattle.std.specs.Prelude.{◌≡◌, ◌+◌, ◌≤◌, ◌<◌, get_or, length};
ghost use Rattle.rules.specs.KindTable.{kind_table};
ghost use Rattle.report.specs.Laid.{Laid};
ghost use Rattle.kinds.specs.Printed.{number_line, number_lines};
ghost use Rattle.kinds.specs.Room.{line_room, table_room};

use crate::two_kinds::{compatible_with, superset_of, union};
use limits::{CONTENTS_DECIDE, KIND_COUNT, KIND_NUMBERS, KIND_PAIRS, Kind};
use report::{NUMBER_ROOM, put, put_number};

// Bytes that suffice for the text: a number and a line feed each.
pub const TEXT: usize = KIND_NUMBERS * (NUMBER_ROOM + 1);

// Every number of the table in turn, to the front of `out`. Answers how many bytes that took.
#[tactic(auto, using(crate::proofs::PrintLaws::lining))]
pub fn put_table(out: &mut [u8]) -> usize
    requires { table_room ≤ length out.old }
    ensures { Laid result 0 out.old out.new (number_lines kind_table) × (result ≤ length out.new) }
{
    let mut end = 0;
    for i in 0..KIND_NUMBERS {
        end = put_line(number_at(i), &mut *out, end);
    }
    end
}

// A number on a line of its own, from `at` on. Answers the place after it.
#[tactic(auto, using(report::proofs::TextLaws::length_decimal))]
fn put_line(n: u64, out: &mut [u8], at: usize) -> usize
    requires { at + line_room ≤ length out.old }
    ensures { Laid result at out.old out.new (number_line n) }
{
    let end = put_number(n, &mut *out, at);
    put(b"\n", out, end)
}

// The number at a place of the table, by its square, its row and its column.
#[tactic(auto, using(crate::proofs::PrintLaws::table_at))]
fn number_at(i: usize) -> u64
    requires { i < length kind_table }
    ensures { result ≡ get_or kind_table i 0 }
{
    let k = Kind::of_code((i % KIND_PAIRS / KIND_COUNT) as u8);
    let l = Kind::of_code((i % KIND_COUNT) as u8);
    if i < KIND_PAIRS {
        return superset_of(k, l) as u64;
    }
    if i < 2 * KIND_PAIRS {
        return compatible_with(k, l) as u64;
    }
    match union(k, l) {
        Some(kind) => kind.code() as u64,
        None => CONTENTS_DECIDE as u64,
    }
}

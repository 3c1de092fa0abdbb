// Bytes, counts, marks, sizes and names. In each function `place` is the first byte of the record that the bytes at `at`
// belong to, which its refusals name.
ghost use Rattle.std.specs.Prelude.{◌≡◌, ◌+◌, ◌≤◌, length};
ghost use Rattle.format.specs.Reader.{map_read, byte, judged};
ghost use Rattle.format.specs.Records.{mark, dim_number, list_count, is_count, is_optional, is_printing, read_mark, read_dim, read_name};
ghost use Rattle.record.specs.Answers.{reading_of, passing_of, nothing, eight_bytes};

use limits::marks::Mark;
use limits::refusal::{Reason, Refusal};
use limits::{ABSENT, FIRST_PRINTING, LAST_PRINTING, MAX_SIZE, UNKNOWN};

#[tactic(auto, unfolding(format::specs::Reader::byte))]
pub fn read_byte(s: &[u8], place: usize, at: usize) -> Result<(u8, usize), Refusal>
    ensures { reading_of result ≡ byte s.now place at }
{
    if s.len() <= at {
        return Err(Refusal(Reason::Ended, place));
    }
    Ok((s[at], at + 1))
}

#[tactic(auto, unfolding(format::specs::Reader::judged))]
pub fn read_count(s: &[u8], place: usize, at: usize, most: u64) -> Result<(u64, usize), Refusal>
    ensures { reading_of result ≡ judged s.now (is_count most) place at }
{
    let (byte, next) = read_byte(s, place, at)?;
    let count = byte as u64;
    if most < count {
        return Err(Refusal(Reason::OutOfRange, place));
    }
    Ok((count, next))
}

// A count, or the byte for a list that is absent.
#[tactic(auto, unfolding(format::specs::Reader::judged))]
pub fn read_optional(s: &[u8], place: usize, at: usize, most: u64) -> Result<(u64, usize), Refusal>
    ensures { reading_of result ≡ judged s.now (is_optional most) place at }
{
    let (byte, next) = read_byte(s, place, at)?;
    let count = byte as u64;
    if most < count && count != ABSENT {
        return Err(Refusal(Reason::OutOfRange, place));
    }
    Ok((count, next))
}

// A byte of a name.
#[tactic(auto, unfolding(format::specs::Reader::judged))]
fn read_printing(s: &[u8], place: usize, at: usize) -> Result<(u8, usize), Refusal>
    ensures { reading_of result ≡ judged s.now is_printing place at }
{
    let (byte, next) = read_byte(s, place, at)?;
    let code = byte as u64;
    if code < FIRST_PRINTING || LAST_PRINTING < code {
        return Err(Refusal(Reason::OutOfRange, place));
    }
    Ok((byte, next))
}

// A mark is judged once both its bytes are there.
#[tactic(auto, unfolding(format::specs::Records::read_mark))]
pub fn read_mark(s: &[u8], place: usize, at: usize, due: Mark) -> Result<usize, Refusal>
    ensures { passing_of result ≡ map_read nothing (read_mark s.now (mark due.first due.second) place at) }
{
    let (first, between) = read_byte(s, place, at)?;
    let (second, next) = read_byte(s, place, between)?;
    if first != due.first || second != due.second {
        return Err(Refusal(Reason::Unmarked, place));
    }
    Ok(next)
}

// Eight bytes, low byte first. The sum is flat: so the compiler makes one load of it.
pub fn number_at(s: &[u8], at: usize) -> u64
    requires { at + 8 ≤ length s.now }
    ensures { result ≡ eight_bytes s.now at }
{
    let a = s[at] as u64;
    let b = s[at + 1] as u64;
    let c = s[at + 2] as u64;
    let d = s[at + 3] as u64;
    let e = s[at + 4] as u64;
    let f = s[at + 5] as u64;
    let g = s[at + 6] as u64;
    let h = s[at + 7] as u64;
    a + 256 * b
        + 65536 * c
        + 16777216 * d
        + 4294967296 * e
        + 1099511627776 * f
        + 281474976710656 * g
        + 72057594037927936 * h
}

// How many a list holds, by its count, which may be absent.
pub fn list_count(n: u64) -> u64
    ensures { result ≡ list_count n }
{
    if n == ABSENT { 0 } else { n }
}

// A size is judged once all its bytes are there.
#[tactic(auto, using(crate::proofs::ByteLaws::eight_there, crate::proofs::ByteLaws::eight_ended), unfolding(format::specs::Records::read_dim))]
pub fn read_size(s: &[u8], place: usize, at: usize) -> Result<(u64, usize), Refusal>
    ensures { reading_of result ≡ map_read dim_number (read_dim s.now place at) }
{
    if s.len() < 8 || s.len() - 8 < at {
        return Err(Refusal(Reason::Ended, place));
    }
    let size = number_at(s, at);
    if MAX_SIZE < size && size != UNKNOWN {
        return Err(Refusal(Reason::Oversized, place));
    }
    Ok((size, at + 8))
}

// The bytes of a name, each judged as it is read.
#[tactic(auto, using(crate::proofs::ByteLaws::name_step, crate::proofs::ByteLaws::name_end))]
pub fn read_name(s: &[u8], place: usize, start: usize, count: u64) -> Result<usize, Refusal>
    ensures { passing_of result ≡ map_read nothing (read_name s.now count place start) }
{
    let mut at = start;
    for _ in 0..count {
        let (_, next) = read_printing(s, place, at)?;
        at = next;
    }
    Ok(at)
}

// Parts of a text, put into a buffer from a place on, where there is room for them. Each answers the place after it.
ghost use Rattle.std.specs.Prelude.{◌+◌, ◌*◌, ◌≤◌, length};
ghost use Rattle.text.specs.Digits.{hex_of, decimal_of};
ghost use Rattle.report.specs.Room.{number_room};
ghost use Rattle.report.specs.Laid.{Laid};

use lent::lay;
use text::put_decimal;

pub fn put(bytes: &[u8], out: &mut [u8], at: usize) -> usize
    requires { at + length bytes.now ≤ length out.old }
    ensures { Laid result at out.old out.new bytes.now }
{
    lay(bytes, &mut *out, at);
    at + bytes.len()
}

#[tactic(auto, using(crate::proofs::TextLaws::number_laid))]
pub fn put_number(n: u64, out: &mut [u8], at: usize) -> usize
    requires { at + number_room ≤ length out.old }
    ensures { Laid result at out.old out.new (decimal_of n) }
{
    put_decimal(n, &mut *out, at).unwrap_or(at)
}

#[tactic(auto, using(crate::proofs::TextLaws::hex_laid))]
pub fn put_hex(bytes: &[u8], out: &mut [u8], at: usize) -> usize
    requires { at + 2 * length bytes.now ≤ length out.old }
    ensures { Laid result at out.old out.new (hex_of bytes.now) }
{
    text::put_hex(bytes, &mut *out, at).unwrap_or(at)
}

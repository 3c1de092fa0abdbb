// Text put into a buffer from a place on, if it has room there whole. Each function answers the place after it; where there is no room it
// answers none and leaves the buffer as lent.
ghost use Rattle.std.specs.Prelude.{◌≡◌, ◌+◌, ◌*◌, ◌≤◌, ◌<◌, length};
ghost use Rattle.io.specs.Digits.{hex_digit_ascii};
ghost use Rattle.lent.specs.Over.{over};
ghost use Rattle.text.specs.Digits.{hex_of, decimal_of};
ghost use Rattle.text.specs.Place.{place};
ghost use Rattle.text.specs.Answers.{placing};

use lent::lay;

// Bytes as they are.
#[tactic(auto, using(crate::proofs::PlaceLaws::place_short, crate::proofs::PlaceLaws::place_fits))]
pub fn put_bytes(bytes: &[u8], out: &mut [u8], at: usize) -> Option<usize>
    ensures { placing result out.new ≡ place out.old at bytes.now }
{
    let n = bytes.len();
    if out.len() < n || out.len() - n < at {
        return None;
    }
    lay(bytes, &mut *out, at);
    Some(at + n)
}

// Bytes as hexadecimal digits in lower case, two each.
#[tactic(auto, using(crate::proofs::PlaceLaws::place_short, crate::proofs::PlaceLaws::place_fits, crate::proofs::RenderLaws::lengths))]
pub fn put_hex(bytes: &[u8], out: &mut [u8], at: usize) -> Option<usize>
    ensures { placing result out.new ≡ place out.old at (hex_of bytes.now) }
{
    let n = bytes.len();
    if out.len() < at || (out.len() - at) / 2 < n {
        return None;
    }
    lay_hex(bytes, &mut *out, at);
    Some(at + 2 * n)
}

// A number in decimal, with no zero before another digit.
#[tactic(auto, using(crate::proofs::RenderLaws::fewest_digits))]
pub fn put_decimal(n: u64, out: &mut [u8], at: usize) -> Option<usize>
    ensures { placing result out.new ≡ place out.old at (decimal_of n) }
{
    let mut digits = [0u8; 20];
    let k = io::decimal(n, &mut digits);
    put_bytes(&digits[..k], out, at)
}

#[tactic(auto, using(lent::proofs::LayLaws::paste_all, crate::proofs::RenderLaws::lengths, crate::proofs::RenderLaws::hex_more))]
fn lay_hex(bytes: &[u8], out: &mut [u8], at: usize)
    requires { at + 2 * length bytes.now ≤ length out.old }
    ensures { out.new ≡ over out.old at (hex_of bytes.now) }
{
    for i in 0..bytes.len() {
        let byte = bytes[i];
        let to = at + 2 * i;
        out[to] = hex_digit(byte / 16);
        out[to + 1] = hex_digit(byte % 16);
    }
}

fn hex_digit(d: u8) -> u8
    requires { d < 16 }
    ensures { result ≡ hex_digit_ascii d }
{
    if d < 10 { b'0' + d } else { b'a' + (d - 10) }
}

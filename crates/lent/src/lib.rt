// Lent buffers: bytes laid over a part of one, and a result delivered to the front of one or refused.
#![tactic(auto)]

ghost use Rattle.std.specs.Prelude.{◌≡◌, ◌+◌, ◌≤◌, length};
ghost use Rattle.format.specs.Outcome.{accepted, deliver};
ghost use Rattle.lent.specs.Over.{over};
ghost use Rattle.lent.specs.Written.{delivered};

use limits::refusal::{Reason, Refusal};

// All of src, to dst from `at` on. Byte by byte, so that the compiler makes a copy of it that asks nothing of a host but memcpy.
#[tactic(auto, using(crate::proofs::LayLaws::paste_more, crate::proofs::LayLaws::paste_all))]
pub fn lay(src: &[u8], dst: &mut [u8], at: usize)
    requires { at + length src.now ≤ length dst.old }
    ensures { dst.new ≡ over dst.old at src.now }
{
    for i in 0..src.len() {
        dst[at + i] = src[i];
    }
}

// Bytes that a call answers: they go to the front of its result, or the result is too short and stays as lent. Answers how many they are.
#[tactic(auto, using(crate::specs::Delivers::deliver_bytes, crate::specs::Delivers::deliver_nothing))]
pub fn hand_over(src: &[u8], res: &mut [u8]) -> Result<usize, Refusal>
    ensures { delivered result res.new ≡ deliver (accepted src.now) res.old }
{
    let n = src.len();
    if res.len() < n {
        return Err(Refusal(Reason::TooShort, 0));
    }
    lay(src, &mut *res, 0);
    Ok(n)
}

// Outputs, as standard output and standard error.
ghost use Rattle.std.specs.Prelude.{length};
ghost use Rattle.streams.specs.Streams.{AtMost, ToTheEnd};

use crate::told::told;
use crate::{Answered, Moved};
use std::io::Write;

// Writes until all is written, or a write takes nothing or fails: a short one is continued.
fn write_to_end<W: Write>(to: &mut W, bytes: &[u8]) -> Moved
    ensures { ToTheEnd result.count result.last (length bytes.now) }
{
    let mut count = 0usize;
    let mut last = Answered::Nothing;
    while count < bytes.len() {
        last = write_some(&mut *to, &bytes[count..]);
        let Answered::Bytes(n) = last else {
            return Moved { count, last };
        };
        count += n;
    }
    Moved { count, last }
}

// To standard output.
pub fn write_out<W: Write>(out: &mut W, text: &[u8]) -> Moved
    ensures { ToTheEnd result.count result.last (length text.now) }
{
    write_to_end(out, text)
}

// A sentence on standard error. If it cannot be written there is nowhere left to say so.
pub fn complain<W: Write>(err: &mut W, sentence: &[u8]) {
    write_to_end(err, sentence);
}

// One write.
fn write_some<W: Write>(to: &mut W, bytes: &[u8]) -> Answered
    ensures { AtMost result (length bytes.now) }
{
    told(to.write(bytes))
}

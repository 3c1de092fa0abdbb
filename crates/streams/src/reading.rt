// An input, as standard input.
ghost use Rattle.std.specs.Prelude.{length};
ghost use Rattle.streams.specs.Streams.{AtMost, ToTheEnd};

use crate::told::told;
use crate::{Answered, Moved};
use std::io::Read;

// Reads until the buffer is full, the input ends or a read fails. What was read stands at the buffer's front.
pub fn read_to_end<R: Read>(input: &mut R, buf: &mut [u8]) -> Moved
    ensures { ToTheEnd result.count result.last (length buf.old) }
{
    let mut count = 0usize;
    let mut last = Answered::Nothing;
    while count < buf.len() {
        last = read_some(&mut *input, &mut buf[count..]);
        let Answered::Bytes(n) = last else {
            return Moved { count, last };
        };
        count += n;
    }
    Moved { count, last }
}

// One read: as much of the input as there is at once.
pub fn read_some<R: Read>(input: &mut R, buf: &mut [u8]) -> Answered
    ensures { AtMost result (length buf.old) }
{
    told(input.read(&mut *buf))
}

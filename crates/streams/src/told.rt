// The answer of a reader or a writer as a name.
ghost use Rattle.std.specs.Prelude.{◌≡◌};
ghost use Rattle.streams.specs.Streams.{answered_by};

use crate::Answered;
use std::io::Result;

pub(crate) fn told(got: Result<usize>) -> Answered
    ensures { result ≡ answered_by got }
{
    match got {
        Ok(0) => Answered::Nothing,
        Ok(n) => Answered::Bytes(n),
        Err(_) => Answered::Failed,
    }
}

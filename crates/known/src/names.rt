// Names, which stand behind their lengths.
ghost use Rattle.std.specs.Prelude.{List, ℕ};
ghost use Rattle.std.proofs.Math.Option.{Option};
ghost use Rattle.known.specs.Known.{NameAt, HasName, NameIs};

use crate::Name;
use limits::ABSENT;

pub fn name_at(s: &[u8], at: usize) -> Name
    requires { HasName s.now at }
    ensures { (n : Option (List ℕ)) → NameAt s.now at n → NameIs s.now at n result }
{
    let n = s[at] as u64;
    let start = at + 1;
    if n == ABSENT {
        return Name {
            named: false,
            start,
            end: start,
        };
    }
    Name {
        named: true,
        start,
        end: start + n as usize,
    }
}

// Lists of types in known bytes, which stand one after the other or all at one place.
ghost use Rattle.std.specs.Prelude.{◌≡◌, cond};
ghost use Rattle.model.specs.Limits.{max_depth};
ghost use Rattle.model.specs.Types.{Fields, Ty, field_count, among};
ghost use Rattle.known.specs.Known.{TypeAt, HasType};
ghost use Rattle.validate.specs.Lists.{next_place, ListAt, Countable};

use known::span_at;

// The place of the next type of a list.
pub fn next_place(at: usize, end: usize, moves: bool) -> usize
    ensures { result ≡ cond moves end at }
{
    if moves { end } else { at }
}

// The same, where the type's end is to be found.
pub fn next_type(s: &[u8], at: usize, moves: bool) -> usize
    requires { HasType s.now at max_depth }
    ensures { (t : Ty) → TypeAt s.now at max_depth t → result ≡ next_place moves at t }
{
    if moves { span_at(s, at).end } else { at }
}

// How many types a list of as many is.
pub fn types_in(s: &[u8], start: usize, count: u64, moves: bool) -> u64
    requires { Countable s.now start count moves }
    ensures { (f : Fields) → ListAt moves s.now start f → field_count f ≡ count → result ≡ among f }
{
    let mut at = start;
    let mut types = 0;
    for _ in 0..count {
        let span = span_at(s, at);
        types += span.types;
        at = next_place(at, span.end, moves);
    }
    types
}

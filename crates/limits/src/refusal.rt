// Why something is refused, and where.
ghost use Rattle.std.specs.Prelude.{◌≡◌};
ghost use Rattle.limits.specs.Answers.{number_of};

// The reasons by their numbers.
#[derive(Clone, Copy, Debug, PartialEq, Eq)]
pub enum Reason {
    Ended = 1,
    Unmarked = 2,
    OutOfRange = 3,
    Oversized = 4,
    TooMany = 5,
    Trailing = 6,
    TooShort = 7,
    Unpervaded = 8,
    WrongScalar = 9,
    WrongShape = 10,
    Underflow = 11,
    Overflow = 12,
    NotASize = 13,
    WrongCount = 14,
    Undeclared = 15,
    TooManyNames = 16,
}

impl Reason {
    pub fn number(self) -> u8
        ensures { result ≡ number_of self }
    {
        self as u8
    }
}

// A reason, and the place that the refusal names.
#[derive(Clone, Copy, Debug, PartialEq, Eq)]
pub struct Refusal(pub Reason, pub usize);

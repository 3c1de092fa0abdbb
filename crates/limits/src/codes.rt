// Kinds and forms of boxes, which a record has as codes.
ghost use Rattle.std.specs.Prelude.{◌≡◌, ◌≤◌};
ghost use Rattle.limits.specs.Codes.{code_for, KindOf, form_code, FormOf};
ghost use Rattle.limits.specs.declared.codes.Kind.TheVariants.{Any};
ghost use Rattle.limits.specs.declared.codes.Form.TheVariants.{Def};

use crate::refusal::Reason;
use std::convert::TryFrom;

// The kinds of scalars by their codes, a box among them.
#[derive(Clone, Copy, Debug, PartialEq, Eq, PartialOrd, Ord)]
pub enum Kind {
    Bool = 0,
    Nat = 1,
    Int = 2,
    Num = 3,
    Complex = 4,
    Ascii = 5,
    Char = 6,
    Stream = 7,
    Box = 8,
    Any = 9,
}

impl Kind {
    pub fn code(self) -> u8
        ensures { result ≡ code_for self }
    {
        self as u8
    }

    // The kind of a byte that is known to be a code.
    pub fn of_code(code: u8) -> Kind
        requires { code ≤ code_for Any }
        ensures { code_for result ≡ code }
    {
        match code {
            0 => Kind::Bool,
            1 => Kind::Nat,
            2 => Kind::Int,
            3 => Kind::Num,
            4 => Kind::Complex,
            5 => Kind::Ascii,
            6 => Kind::Char,
            7 => Kind::Stream,
            8 => Kind::Box,
            _ => Kind::Any,
        }
    }
}

impl TryFrom<u8> for Kind {
    type Error = Reason;

    ghost try_from_gives = { KindOf };

    fn try_from(code: u8) -> Result<Self, Reason> {
        if Kind::Any.code() < code {
            return Err(Reason::OutOfRange);
        }
        Ok(Kind::of_code(code))
    }
}

// The forms of a box by their codes: one that holds anything, one that holds a type, and a Def.
#[derive(Clone, Copy, Debug, PartialEq, Eq)]
pub enum Form {
    Any = 0,
    All = 1,
    Def = 2,
}

impl Form {
    pub fn code(self) -> u8
        ensures { result ≡ form_code self }
    {
        self as u8
    }

    // The form of a byte that is known to be a code.
    pub fn of_code(code: u8) -> Form
        requires { code ≤ form_code Def }
        ensures { form_code result ≡ code }
    {
        match code {
            0 => Form::Any,
            1 => Form::All,
            _ => Form::Def,
        }
    }
}

impl TryFrom<u8> for Form {
    type Error = Reason;

    ghost try_from_gives = { FormOf };

    fn try_from(code: u8) -> Result<Self, Reason> {
        if Form::Def.code() < code {
            return Err(Reason::OutOfRange);
        }
        Ok(Form::of_code(code))
    }
}

// Bytes that are known to be a type: what stands where in them, and one kind put for another. Nothing is judged here. Beside `record`,
// which judges, `writer`, which writes, `packing`, which packs and unpacks, and the constant records of `limits`, this crate alone knows
// where marks stand in a record and how many bytes a size has.
#![tactic(auto)]

mod names;
mod scalars;
mod shapes;
mod spans;

use limits::Kind;
pub use names::name_at;
pub use scalars::{form_at, kind_at, look, put_kind};
pub use shapes::{any_shape_at, closed_at, opening_at, scalar_at, shape_at};
pub use spans::{field_at, span_at};

// What a scalar is: a kind, and the place after it; where an All box's content begins; where the length
// of a Def's name stands, before the name, whether it has one, where its fields begin, and how many they are.
#[derive(Clone, Copy)]
pub enum View {
    Plain {
        kind: Kind,
        end: usize,
    },
    BoxAny {
        end: usize,
    },
    BoxAll {
        content: usize,
    },
    BoxDef {
        name: usize,
        named: bool,
        fields: usize,
        count: u64,
    },
}

// How many types a type is, itself counted, how deep it is, and the place after it.
#[derive(Clone, Copy)]
pub struct Span {
    pub types: u64,
    pub depth: u64,
    pub end: usize,
}

// Whether there is a name, and where its bytes begin and end.
#[derive(Clone, Copy)]
pub struct Name {
    pub named: bool,
    pub start: usize,
    pub end: usize,
}

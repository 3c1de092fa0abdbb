// Records, and parts of them, that are the same wherever they are written, named once for all code.
use crate::{Form, Kind, marks};

// A box that holds anything.
pub const BOX_ANY_SCALAR: [u8; 6] = [
    marks::SCALAR.first,
    marks::SCALAR.second,
    Kind::Box as u8,
    marks::BOX.first,
    marks::BOX.second,
    Form::Any as u8,
];

// An All box up to the type in it.
pub const BOX_ALL_START: [u8; 6] = [
    marks::SCALAR.first,
    marks::SCALAR.second,
    Kind::Box as u8,
    marks::BOX.first,
    marks::BOX.second,
    Form::All as u8,
];

// [..] of Any: no opening sizes, open with no closing sizes, and the scalar Any.
pub const ANY_TYPE: [u8; 7] = [
    marks::SHAPE.first,
    marks::SHAPE.second,
    0,
    0,
    marks::SCALAR.first,
    marks::SCALAR.second,
    Kind::Any as u8,
];

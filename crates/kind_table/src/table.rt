// The 300 numbers: a square for each rule, in it a row for each first kind, in it a number for each second kind, rows and columns by
// code. 1 is yes and 0 is no; a union is its kind's code, or 255 where the boxes' contents decide.
use limits::{KIND_COUNT, KIND_RULES};

// Which square is which rule's.
pub(crate) const SUPERSET: usize = 0;

pub(crate) const COMPATIBLE: usize = 1;

pub(crate) const UNION: usize = 2;

pub(crate) const KINDS: [[[u8; KIND_COUNT]; KIND_COUNT]; KIND_RULES] = [
    // superset: the row's kind over the column's
    [
        [1, 0, 0, 0, 0, 0, 0, 0, 0, 0], // Bool
        [1, 1, 0, 0, 0, 0, 0, 0, 0, 0], // Nat
        [1, 1, 1, 0, 0, 0, 0, 0, 0, 0], // Int
        [1, 1, 1, 1, 0, 0, 0, 0, 0, 0], // Num
        [1, 1, 1, 1, 1, 0, 0, 0, 0, 0], // Complex
        [0, 0, 0, 0, 0, 1, 0, 0, 0, 0], // Ascii
        [0, 0, 0, 0, 0, 1, 1, 0, 0, 0], // Char
        [0, 0, 0, 0, 0, 0, 0, 1, 0, 0], // Stream
        [0, 0, 0, 0, 0, 0, 0, 0, 1, 0], // Box
        [1, 1, 1, 1, 1, 1, 1, 1, 1, 1], // Any
    ],
    // compatible, by `compatible_with`
    [
        [1, 1, 1, 1, 1, 0, 0, 0, 0, 1], // Bool
        [1, 1, 1, 1, 1, 0, 0, 0, 0, 1], // Nat
        [1, 1, 1, 1, 1, 0, 0, 0, 0, 1], // Int
        [1, 1, 1, 1, 1, 0, 0, 0, 0, 1], // Num
        [1, 1, 1, 1, 1, 0, 0, 0, 0, 1], // Complex
        [0, 0, 0, 0, 0, 1, 1, 0, 0, 1], // Ascii
        [0, 0, 0, 0, 0, 1, 1, 0, 0, 1], // Char
        [0, 0, 0, 0, 0, 0, 0, 1, 1, 1], // Stream
        [0, 0, 0, 0, 0, 0, 0, 1, 1, 1], // Box
        [1, 1, 1, 1, 1, 1, 1, 1, 1, 1], // Any
    ],
    // union
    [
        [0, 1, 2, 3, 4, 9, 9, 9, 9, 9], // Bool
        [1, 1, 2, 3, 4, 9, 9, 9, 9, 9], // Nat
        [2, 2, 2, 3, 4, 9, 9, 9, 9, 9], // Int
        [3, 3, 3, 3, 4, 9, 9, 9, 9, 9], // Num
        [4, 4, 4, 4, 4, 9, 9, 9, 9, 9], // Complex
        [9, 9, 9, 9, 9, 5, 6, 9, 9, 9], // Ascii
        [9, 9, 9, 9, 9, 6, 6, 9, 9, 9], // Char
        [9, 9, 9, 9, 9, 9, 9, 7, 9, 9], // Stream
        [9, 9, 9, 9, 9, 9, 9, 9, 255, 9], // Box
        [9, 9, 9, 9, 9, 9, 9, 9, 9, 9], // Any
    ],
];

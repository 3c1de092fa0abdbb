// Every limit, every code, every mark, every constant record and every refusal number, named once for all code.
#![tactic(auto)]

mod codes;
pub mod marks;
pub mod records;
pub mod refusal;

pub use codes::{Form, Kind};

// The version of the library and of the programs: one more with every change that a host or a reader of answers can see.
pub const VERSION: u64 = 9;

// The largest static size, 2^53, and the number that stands for an unknown one.
pub const MAX_SIZE: u64 = 9007199254740992;

pub const UNKNOWN: u64 = 18446744073709551615;

// Opening sizes of a shape, and closing sizes.
pub const MAX_SIZES: usize = 8;

// Bytes of a name, a Def's or a table's; fields of a Def.
pub const MAX_NAME: u64 = 16;

pub const MAX_FIELDS: u64 = 31;

// The first and the last printing character of ASCII, between which every byte of a name is.
pub const FIRST_PRINTING: u64 = 32;

pub const LAST_PRINTING: u64 = 126;

// Types in one type, itself counted; the outermost is at depth 1.
pub const MAX_TYPES: u64 = 32;

pub const MAX_DEPTH: u64 = 8;

// Bytes that suffice for any type.
pub const MAX_BYTES: usize = 4992;

// Steps of a sheet; types on the stack; names in force.
pub const MAX_STEPS: usize = 64;

pub const MAX_STACK: usize = 6;

pub const MAX_NAMES: usize = 16;

// Bytes of a size as it lies in the scratch, the number that stands for an unknown one there, and bytes that suffice for any type.
pub const PACKED_SIZE: usize = 7;

pub const PACKED_UNKNOWN: u64 = 72057594037927935;

pub const MAX_PACKED: usize = 4288;

// Bytes of scratch: room of MAX_PACKED for each type on the stack.
pub const SCRATCH_BYTES: usize = MAX_STACK * MAX_PACKED;

// Bytes of a result that is never too short: MAX_BYTES for each type that can be left.
pub const RESULT_BYTES: usize = MAX_STACK * MAX_BYTES;

// Bytes of a sheet that the program reads.
pub const MAX_SHEET: usize = 49152;

// The byte for a count that is absent.
pub const ABSENT: u64 = 255;

// How many kinds there are, how many pairs of them, how many rules the table of kinds has, and how many numbers that makes.
pub const KIND_COUNT: usize = 10;

pub const KIND_PAIRS: usize = KIND_COUNT * KIND_COUNT;

pub const KIND_RULES: usize = 3;

pub const KIND_NUMBERS: usize = KIND_RULES * KIND_PAIRS;

// The mark of that table in place of a union's code: the boxes' contents decide.
pub const CONTENTS_DECIDE: u8 = 255;

// The greatest flag of a pervading, which has both bits.
pub const MAX_FLAG: u8 = 3;

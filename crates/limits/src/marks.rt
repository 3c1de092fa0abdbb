// The two bytes that begin each record and each step, named once for all code; a host's numbers for them are `velgrodis`'s.
#[derive(Clone, Copy)]
pub struct Mark {
    pub first: u8,
    pub second: u8,
}

// Of a shape, a scalar, a box.
pub const SHAPE: Mark = Mark {
    first: 0x53,
    second: 0x48,
};

pub const SCALAR: Mark = Mark {
    first: 0x53,
    second: 0x43,
};

pub const BOX: Mark = Mark {
    first: 0x42,
    second: 0x58,
};

// Of the steps of a sheet.
pub const PUT: Mark = Mark {
    first: 0x50,
    second: 0x55,
};

pub const ROW: Mark = Mark {
    first: 0x52,
    second: 0x57,
};

pub const PERVADE: Mark = Mark {
    first: 0x50,
    second: 0x56,
};

pub const JOIN: Mark = Mark {
    first: 0x4A,
    second: 0x4E,
};

pub const VALIDATE: Mark = Mark {
    first: 0x56,
    second: 0x41,
};

pub const DECLARE: Mark = Mark {
    first: 0x4E,
    second: 0x4D,
};

pub const USE: Mark = Mark {
    first: 0x55,
    second: 0x53,
};

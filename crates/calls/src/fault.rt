// Why a line is no request.
#[derive(Clone, Copy)]
pub enum Fault {
    Long,
    Request,
    Words,
    Value,
    Side,
    Number,
    Hex,
}

impl Fault {
    // The word that an answer says it by.
    pub fn word(self) -> &'static [u8] {
        match self {
            Fault::Long => b"long",
            Fault::Request => b"request",
            Fault::Words => b"words",
            Fault::Value => b"value",
            Fault::Side => b"side",
            Fault::Number => b"number",
            Fault::Hex => b"hex",
        }
    }
}

//! Codes of instructions.

/// How many halfwords an instruction takes.
#[derive(Clone, Copy, Debug, PartialEq, Eq)]
pub enum Width {
    /// One.
    Half,
    /// Two.
    Full,
}

/// The halfwords of an instruction, in the order of their addresses.
#[derive(Clone, Copy, Debug, PartialEq, Eq)]
pub enum Code {
    Half(u16),
    Full(u16, u16),
}

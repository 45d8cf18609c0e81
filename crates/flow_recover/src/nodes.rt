//! Instruction starts as control reaches them.

/// An instruction start of a section, with the IT state that control has there (ARMv7-M ARM, A7.3).
#[derive(Clone, Copy, PartialEq, Eq, PartialOrd, Ord)]
pub(crate) struct Node {
    pub(crate) section: u32,
    pub(crate) offset: u32,
    pub(crate) it: u8,
}

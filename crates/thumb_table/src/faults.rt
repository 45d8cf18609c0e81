//! Why a step stops.

use thumb_instr::BadInstr;

/// Why an instruction is not carried out. Of several the first comes.
#[derive(Clone, Copy, Debug, PartialEq, Eq)]
pub enum FaultKind {
    /// A UDF.
    Trap,
    /// An access not wholly in memory, or a literal not wholly in code.
    BadAddress,
    /// A transfer of several words at no multiple of 4.
    Unaligned,
    /// sp would become no multiple of 4.
    BadStack,
    /// A jump to a word with bit 0 clear.
    BadJump,
    /// No whole instruction lies at pc.
    BadFetch,
    /// The halfwords at pc are no instruction.
    BadCode(BadInstr),
}

//! What counts as used where control leaves a flow.

use thumb_instr::RegSet;

/// The members that are live at a call, at a transfer, as to a register other than lr, and at a return.
#[derive(Clone, Copy, Debug)]
pub struct Boundary {
    pub call: RegSet,
    pub transfer: RegSet,
    pub ret: RegSet,
}

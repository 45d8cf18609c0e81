//! What a point reads, writes and passes on.

ghost use Rattle.std.specs.Prelude.{◌≡◌, ℕ};
ghost use Rattle.thumb_instr.specs.Operands.{has};
ghost use Rattle.liveness.specs.Paths.{branch_cond, has_condition, reads_at, always_writes, leaves, passes, boundary_of, uses_at};

use crate::Boundary;
use crate::members::minus;
use flow_recover::{Exit, Point, may_fail};
use thumb_instr::{Cond, Instr, RegSet, cond_reads, reads, sets_flags, writes};

/// The condition of a branch instruction.
fn branch_cond(i: &Instr) -> Cond
    ensures { result ≡ branch_cond i.now }
{
    match i {
        Instr::Branch(i) => i.cond,
        _ => Cond::Al,
    }
}

fn has_condition(x: &Point) -> bool
    ensures { result ≡ has_condition x.now }
{
    may_fail(x.cond) || may_fail(branch_cond(&x.instr))
}

fn reads_at(x: &Point) -> RegSet
    ensures { (k : ℕ) → has result.0 k ≡ reads_at x.now k }
{
    reads(&x.instr).with(cond_reads(x.cond).with(cond_reads(branch_cond(&x.instr))))
}

/// What a point writes whatever the flags are.
pub(crate) fn always_writes(x: &Point) -> RegSet
    ensures { (k : ℕ) → has result.0 k ≡ always_writes x.now k }
{
    writes(&x.instr)
        .with(sets_flags(&x.instr))
        .only_if(!has_condition(x))
}

/// Whether control leaves the flow here, if the condition holds.
pub(crate) fn leaves(exit: Exit) -> bool
    ensures { result ≡ leaves exit }
{
    matches!(exit, Exit::Transfer | Exit::Call | Exit::Return)
}

/// Whether paths go on behind a point.
pub(crate) fn passes(x: &Point) -> bool
    ensures { result ≡ passes x.now }
{
    !leaves(x.exit) || has_condition(x)
}

/// The members of an exit's set.
pub(crate) fn boundary_of(b: &Boundary, exit: Exit) -> RegSet
    ensures { (k : ℕ) → has result.0 k ≡ boundary_of b.now exit k }
{
    match exit {
        Exit::Call => b.call.members(),
        Exit::Transfer => b.transfer.members(),
        Exit::Return => b.ret.members(),
        Exit::Falls | Exit::Branch(_) | Exit::Stops => RegSet::none(),
    }
}

/// What a point uses.
pub(crate) fn uses_at(b: &Boundary, x: &Point) -> RegSet
    ensures { (k : ℕ) → has result.0 k ≡ uses_at b.now x.now k }
{
    reads_at(x).with(minus(boundary_of(b, x.exit), always_writes(x)))
}

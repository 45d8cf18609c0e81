//! Laws of the classes of sequences that move bases, stacks and control, and of long sums. The functions do nothing: their contracts are the laws.

ghost use Rattle.seq_core.specs.Bases.{BaseCopyListCarries, BaseCopyOneCarries, BaseCopyPairCarries, FlaggedProductCarries, PostAccessCarries, PostPairCarries, PreAccessCarries, PrePairCarries};
ghost use Rattle.seq_core.specs.Calls.{DirectCallCarries, LinkCallCarries, RegisterCallCarries, RegisterJumpCarries, ZeroBranchCarries};
ghost use Rattle.seq_core.specs.Decoded.{BaseCopyDecodes};
ghost use Rattle.seq_core.specs.Stacks.{DownCarries, PopReturnCarries, UpCarries};
ghost use Rattle.seq_core.specs.Sums.{LongSumCarries};

/// An access whose base moves first: the base moves by way of a scratch register, and the access is at the base.
pub fn pre_accesses_work()
    ensures { PreAccessCarries }
{}

/// An access whose base moves last: the access is at the base, which then moves by way of a scratch register.
pub fn post_accesses_work()
    ensures { PostAccessCarries }
{}

/// The same for a pair whose base moves first.
pub fn pre_pairs_work()
    ensures { PrePairCarries }
{}

/// The same for a pair whose base moves last.
pub fn post_pairs_work()
    ensures { PostPairCarries }
{}

/// A product that sets flags: a product into a scratch register, and MOVS from it.
pub fn flagged_products_work()
    ensures { FlaggedProductCarries }
{}

/// A load of a list that has its base: the load is from a copy of the base.
pub fn base_copies_of_lists_work()
    ensures { BaseCopyListCarries }
{}

/// The same for a pair.
pub fn base_copies_of_pairs_work()
    ensures { BaseCopyPairCarries }
{}

/// The same for a list of the base alone.
pub fn base_copies_of_one_work()
    ensures { BaseCopyOneCarries }
{}

/// Of what halfwords stand for only a free register is asked.
pub fn decodes_copy_bases()
    ensures { BaseCopyDecodes }
{}

/// A list that moves its base down: the base moves by way of a scratch register, and the list is at the base.
pub fn lists_downwards_work()
    ensures { DownCarries }
{}

/// A list that moves its base up: the list is at the base, which then moves by way of a scratch register.
pub fn lists_upwards_work()
    ensures { UpCarries }
{}

/// A pop into pc: its word goes to lr, sp moves by way of a scratch register, and a jump by lr follows, which keeps lr.
pub fn pops_into_pc_work()
    ensures { PopReturnCarries }
{}

/// CBZ and CBNZ: the inverse one passes by a branch.
pub fn zero_branches_work()
    ensures { ZeroBranchCarries }
{}

/// A jump by a register stays itself.
pub fn register_jumps_work()
    ensures { RegisterJumpCarries }
{}

/// BL: the return address goes to lr, and a branch follows.
pub fn direct_calls_work()
    ensures { DirectCallCarries }
{}

/// BLX: the return address goes to lr, and a jump by the register follows.
pub fn register_calls_work()
    ensures { RegisterCallCarries }
{}

/// BLX of lr: the jump is by a copy of it.
pub fn link_calls_work()
    ensures { LinkCallCarries }
{}

/// SMLAL and UMLAL: a long product into scratch registers, ADDS and ADC, and moves from there; the flags are lost.
pub fn long_sums_work()
    ensures { LongSumCarries }
{}

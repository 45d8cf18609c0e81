//! Laws of the classes of sequences. The functions do nothing: their contracts are the laws.

ghost use Rattle.seq_core.specs.Decoded.{IdempotentDecodes, ThroughDecodes};
ghost use Rattle.seq_core.specs.Groups.{HalfPlaced, LiteralPlaced, Placed};
ghost use Rattle.seq_core.specs.Guards.{ConditionCarries, GuardCarries};
ghost use Rattle.seq_core.specs.Sequences.{Moves, Settles};
ghost use Rattle.seq_core.specs.Single.{ItselfCarries, SettledCarries};
ghost use Rattle.seq_core.specs.Through.{HighProductCarries, InsertSelfCarries, LongProductCarries, LowProductCarries, SpSumCarries, ThroughCarries};
ghost use Rattle.seq_core.specs.Twice.{BranchCarries, ClearCarries, HalfCarries, IdempotentCarries, InsertCarries, TrapCarries, TwiceCarries};

/// An instruction that writes nothing that it reads does its own work, as often as it stands.
pub fn twice_in_place()
    ensures { TwiceCarries }
{}

/// So do branches.
pub fn branches_in_place()
    ensures { BranchCarries }
{}

/// So do traps.
pub fn traps_in_place()
    ensures { TrapCarries }
{}

/// So do MOVW and MOVT, where each copy has the mark.
pub fn halves_in_place()
    ensures { HalfCarries }
{}

/// So does BFC.
pub fn clears_in_place()
    ensures { ClearCarries }
{}

/// So does BFI from another register.
pub fn inserts_in_place()
    ensures { InsertCarries }
{}

/// In all, what may be executed twice in a row for once stays as it is.
pub fn idempotent_in_place()
    ensures { IdempotentCarries }
{}

/// Of what halfwords stand for nothing more is asked.
pub fn idempotent_decodes_in_place()
    ensures { IdempotentDecodes }
{}

/// Where nothing is skipped, any instruction but IT stays as it is.
pub fn itself_once()
    ensures { ItselfCarries }
{}

/// Where nothing is skipped, one copy is enough of what may be done again.
pub fn settled_once()
    ensures { SettledCarries }
{}

/// A branch on the inverse condition makes of a sequence one under a condition.
pub fn guards_work()
    ensures again { GuardCarries Settles }
    ensures once { GuardCarries Moves }
{}

/// With it a sequence does its work under an IT condition, beside a test of its own.
pub fn conditions_work()
    ensures again { ConditionCarries Settles }
    ensures once { ConditionCarries Moves }
{}

/// A value may go to a scratch register first.
pub fn through_scratch()
    ensures { ThroughCarries }
{}

/// Of what halfwords stand for only a free register is asked.
pub fn decodes_through_scratch()
    ensures { ThroughDecodes }
{}

/// So may a sum with sp.
pub fn sp_sums_through_scratch()
    ensures { SpSumCarries }
{}

/// So may the source of BFI, where it is the destination.
pub fn inserts_through_scratch()
    ensures { InsertSelfCarries }
{}

/// So may both words of a long product.
pub fn long_products_through_scratch()
    ensures { LongProductCarries }
{}

/// So may its low word alone.
pub fn low_words_through_scratch()
    ensures { LowProductCarries }
{}

/// So may its high word alone.
pub fn high_words_through_scratch()
    ensures { HighProductCarries }
{}

/// A copy at its place does what its group does, where its number leads to the group's place.
pub fn copies_at_places()
    ensures { Placed }
{}

/// MOVW and MOVT do, with the mark of their place.
pub fn halves_at_places()
    ensures { HalfPlaced }
{}

/// A literal does, where the word of its group stands at its place.
pub fn literals_at_places()
    ensures { LiteralPlaced }
{}

//! Laws of paired objects. The functions do nothing: their contracts are the laws.

ghost use Rattle.sim_relation.specs.AddsRow.{AddsIsDone};
ghost use Rattle.sim_relation.specs.Charted.{PairsWork};
ghost use Rattle.sim_relation.specs.Copies.{FewerCopiesDo};
ghost use Rattle.sim_relation.specs.EmptyLoop.{EmptyLoopsWork};
ghost use Rattle.sim_relation.specs.FirstRow.{CopyIsRefused, FirstRowIsPaired};
ghost use Rattle.sim_relation.specs.Living.{AcceptedLive};
ghost use Rattle.sim_relation.specs.Refused.{EachCopyIsLinked, ReadRegistersAreKept};
ghost use Rattle.sim_relation.specs.Same.{SameByRows};
ghost use Rattle.sim_relation.specs.Spared.{PairsSpare};

/// MOVS r0, #5 and BX LR, each twice, are paired with the two.
pub fn first_row_is_paired()
    ensures { FirstRowIsPaired }
{}

/// A copy with a map of each point to itself is not, whatever its sequences are said to be.
pub fn copy_is_refused()
    ensures { CopyIsRefused }
{}

/// An instruction that reads its destination is done through a scratch register.
pub fn adds_is_done()
    ensures { AddsIsDone }
{}

/// No bytes at all do a branch to itself: so each unit of a pair begins inside of its section.
pub fn empty_loops_work()
    ensures { EmptyLoopsWork }
{}

/// In a code where a point's unit stands, linked, it does the point's instruction.
pub fn pairs_work()
    ensures { PairsWork }
{}

/// What a unit loses is dead behind its point, and it keeps sp, and lr where the instruction names it.
pub fn pairs_spare()
    ensures { PairsSpare }
{}

/// In a chart that has the points of an accepted object's flow, with what is live there, what a point uses and
/// passes on is live, and no more is at entries and behind calls than is kept there.
pub fn accepted_live()
    ensures { AcceptedLive }
{}

/// A register that the next instruction reads is no scratch register.
pub fn read_registers_are_kept()
    ensures { ReadRegistersAreKept }
{}

/// Two copies of MOVW of which the first has no relocation do not do one that has.
pub fn each_copy_is_linked()
    ensures { EachCopyIsLinked }
{}

/// What is done for more copies is done for fewer.
pub fn fewer_copies_do()
    ensures { FewerCopiesDo }
{}

/// By the map of two images, what `same` tests is what the theorem on objects promises of two runs.
pub fn same_by_rows()
    ensures { SameByRows }
{}

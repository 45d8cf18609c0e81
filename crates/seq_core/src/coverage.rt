//! Laws of classes. The functions do nothing: their contracts are the laws.

ghost use Rattle.std.specs.Prelude.{◌≡◌, ◌≤◌, false, true};
ghost use Rattle.seq_core.specs.Accepted.{DecodesApart, DecodesKeepFlags, DecodesLoadSeveral, DecodesMoveByBytes, DecodesReach, DecodesTestLow, DecodesUseStack, ThroughKeepsStack};
ghost use Rattle.seq_core.specs.Classes.{ClassesCover, ClassesApart};
ghost use Rattle.seq_core.specs.Needs.{ThroughNeeds, NeedsFit};

use thumb_instr::{decodes_are_formed, decodes_use_carry_once};

/// Each instruction but ADR and IT is of one class, and of no other; and these two are of none.
pub fn instructions_have_one_class()
    ensures one { ClassesCover }
    ensures none { ClassesApart }
{}

/// What goes through scratch registers needs one or two of them, and no sequence needs more than three.
pub fn needs_are_small()
    ensures through { ThroughNeeds }
    ensures all { NeedsFit }
{}

/// Whatever halfwords stand for has its base apart and sp where it may stand; so what goes through scratch
/// registers leaves sp alone. An access moves its base by a number below 256. CBZ and CBNZ test a register below r8.
pub fn decodes_are_apart()
    ensures apart { DecodesApart }
    ensures through { ThroughKeepsStack }
    ensures bytes { DecodesMoveByBytes }
    ensures low { DecodesTestLow }
{}

/// A list loads pc only as a pop without lr, and nothing is summed of sp and sp.
pub fn decodes_use_stack()
    ensures { DecodesUseStack }
{}

/// The offset of an access has 12 bits upwards, and 8 downwards.
pub fn decodes_reach()
    ensures { DecodesReach }
{}

/// No pair is loaded into one register, and no list of one from below its base.
pub fn decodes_load_several()
    ensures { DecodesLoadSeveral }
{}

/// No instruction both reads a flag and sets it.
pub fn decodes_keep_flags()
    ensures { DecodesKeepFlags }
{
    decodes_are_formed();
    decodes_use_carry_once();
}

//! Laws of instructions at places of relocations. The functions do nothing: their contracts are the laws.

ghost use Rattle.reloc_places.specs.DecodedPlaces.{LongAlone, NumberAlone};

/// One halfword alone is never BL, MOVW or MOVT.
pub fn long_kinds_are_long()
    ensures { LongAlone }
{}

/// A number that is right outside of IT blocks is right in each IT state that takes the instruction.
pub fn numbers_are_right_in_blocks()
    ensures { NumberAlone }
{}

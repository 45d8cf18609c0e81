//! Laws of ranges. The function does nothing: its contract is the laws.

ghost use Rattle.std.specs.Prelude.{◌≡◌, List};
ghost use Rattle.elf_model.specs.Objects.{ObjectParts};
ghost use Rattle.elf_model.specs.declared.refusals.Deny.TheVariants.{Refused};
ghost use Rattle.elf_model.specs.declared.refusals.Spot.{Spot};
ghost use Rattle.code_ranges.specs.declared.ranges.Range.{Range};
ghost use Rattle.code_ranges.specs.CodeRanges.{AreRanges, IsRangeDenial};

/// An object has one list of ranges at most, or is refused them for one reason.
pub fn objects_have_one_list_of_ranges()
    ensures one { (o : ObjectParts) (r s : List Range) → AreRanges o r → AreRanges o s → r ≡ s }
    ensures refused { (o : ObjectParts) (s t : Spot) → IsRangeDenial o (Refused s) → IsRangeDenial o (Refused t) → s ≡ t }
    ensures apart { (o : ObjectParts) (r : List Range) (s : Spot) → AreRanges o r → ¬ IsRangeDenial o (Refused s) }
{}

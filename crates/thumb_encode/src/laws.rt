//! Laws of codes. The functions do nothing: their contracts are the laws.

ghost use Rattle.thumb_encode.specs.HasFull.{TellsCodes};

/// Exactly the instructions that `has_full` takes have a code of two halfwords, of those that name
/// registers and take their fields.
pub fn full_codes_are_told()
    ensures { TellsCodes }
{}

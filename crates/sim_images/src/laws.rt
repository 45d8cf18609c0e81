//! Laws of images. The functions do nothing: their contracts are the laws.

ghost use Rattle.sim_images.specs.ImageLaws.{CodeAligned, CodeAsIs, CodeInside, DataAsIs, DataInside, EachLinked, HasPart, NotBoth, OneImage, PartsApart};
ghost use Rattle.sim_images.specs.CodeLaws.{SequenceStands, StandsAsIs, StandsLinked, WordAsIs, WordLinked};

/// Objects that have an image have no fault.
pub fn images_have_no_fault()
    ensures { NotBoth }
{}

/// A list of objects has one image at most at a placement.
pub fn objects_have_one_image()
    ensures { OneImage }
{}

/// Each section of code or data has its part.
pub fn sections_have_parts()
    ensures { HasPart }
{}

/// An address is in one part at most, at one offset.
pub fn parts_lie_apart()
    ensures { PartsApart }
{}

/// Parts of code lie within the code of the image.
pub fn code_lies_inside()
    ensures { CodeInside }
{}

/// Parts of data lie within the data of the image.
pub fn data_lies_inside()
    ensures { DataInside }
{}

/// Parts of code stand at multiples of 4.
pub fn code_is_aligned()
    ensures { CodeAligned }
{}

/// Each relocation of an image is a link, and in range.
pub fn each_relocation_is_linked()
    ensures { EachLinked }
{}

/// A byte of code that no relocation has is its section's.
pub fn code_stays()
    ensures { CodeAsIs }
{}

/// A byte of data that no relocation has is its section's.
pub fn data_stays_in_sections()
    ensures { DataAsIs }
{}

/// At a start without relocation the machine fetches the section's instruction, and no mark.
pub fn plain_instructions_stand()
    ensures { StandsAsIs }
{}

/// At a start with one it fetches the instruction with the linked number, and its mark.
pub fn linked_instructions_stand()
    ensures { StandsLinked }
{}

/// A word among code that has no relocation is the section's, without mark.
pub fn plain_words_stand()
    ensures { WordAsIs }
{}

/// A word among code that has one is the full value, with its mark.
pub fn linked_words_stand()
    ensures { WordLinked }
{}

/// A sequence of a section's instructions stands at consecutive addresses, each instruction linked.
pub fn sequences_stand()
    ensures { SequenceStands }
{}

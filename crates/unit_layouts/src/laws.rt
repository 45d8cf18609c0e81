//! Laws of layouts of units. The functions do nothing: their contracts are the laws.

ghost use Rattle.unit_layouts.specs.Layable.{LayoutsCanBeEmitted, UnitsCanBeLaid};

/// The units of a flow's points can be laid out, whatever is live: their places rise, they stand apart from the words
/// that they load, there are few of them, and each leads to points and words that are there.
pub fn units_can_be_laid()
    ensures { UnitsCanBeLaid }
{}

/// A hardened object can be made of a layout of such units: what carries a relocation is of its kind and has the number
/// that is left, one step of a unit carries its relocation at most, and each unit begins before its section ends.
pub fn layouts_can_be_emitted()
    ensures { LayoutsCanBeEmitted }
{}

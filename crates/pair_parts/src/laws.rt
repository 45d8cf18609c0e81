//! Laws of hardened objects. The functions do nothing: their contracts are the laws.

ghost use Rattle.pair_parts.specs.Made.{MadeArePaired, MadeAreWithin};

use unit_work::units_work;

/// What is made of an object by way of units and their layout is paired with it, by the instructions of the longest
/// unit.
pub fn made_are_paired()
    ensures { MadeArePaired }
{
    units_work();
}

/// What is made of an object is within the limits of every object.
pub fn made_are_within()
    ensures { MadeAreWithin }
{}

//! Laws of hardened forms and the objects that they stand for. The functions do nothing: their contracts are the laws.

ghost use Rattle.sim_answers.specs.CallUnits.{CallRowHasUnits};
ghost use Rattle.sim_answers.specs.Forms.{DataIsAnswered, FlowsAreAccepted, FormsAnswer, PointsHavePlaces, RelocsAreRight, SectionsStay, SymbolsStay, UnitsStand};

/// What an object with a flow makes of a symbol of code has bit 0 set, unless it is a branch.
pub fn flows_are_accepted()
    ensures { FlowsAreAccepted }
{}

/// Sections keep number and sort, and data its size.
pub fn sections_stay()
    ensures { SectionsStay }
{}

/// Points stand inside their sections, at even places.
pub fn points_have_places()
    ensures { PointsHavePlaces }
{}

/// Symbols that other objects see keep their order, and go with their points.
pub fn symbols_stay()
    ensures { SymbolsStay }
{}

/// Each word that is linked in data answers the one at its offset, and no other byte of data differs.
pub fn data_answers()
    ensures { DataIsAnswered }
{}

/// Each relocation of a hardened form is right, answers one of its object, and is of no short branch.
pub fn relocations_answer()
    ensures { RelocsAreRight }
{}

/// Units run through ranges of code, and each of their instructions stands at an instruction start; words among code are
/// words of data; and each point went to its unit.
pub fn units_stand()
    ensures { UnitsStand }
{}

/// Lists of objects and of their hardened forms have all that the laws on their images ask.
pub fn forms_answer()
    ensures { FormsAnswer }
{}

/// The form of a call with a relocation on each of its branches has the units that these laws ask for.
pub fn call_row_has_units()
    ensures { CallRowHasUnits }
{}

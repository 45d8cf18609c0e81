//! Laws of hardened forms. The functions do nothing: their contracts are the laws.

ghost use Rattle.std.specs.Prelude.{◌≡◌, ℕ, List};
ghost use Rattle.elf_model.specs.declared.objects.MapRow.{MapRow};
ghost use Rattle.elf_model.specs.Objects.{ObjectParts};
ghost use Rattle.flow_recover.specs.Flows.{FlowParts};
ghost use Rattle.hardened_form.specs.Places.{Places};
ghost use Rattle.hardened_form.specs.Items.{Item, AreItems};
ghost use Rattle.hardened_form.specs.Rows.{AreRows};
ghost use Rattle.hardened_form.specs.OneForm.{FormsAreAlike};
ghost use Rattle.hardened_form.specs.CallRow.{CallRowHasItsForm};
ghost use Rattle.hardened_form.specs.FirstRow.{FirstRowHasItsForm};
ghost use Rattle.hardened_form.specs.TargetRow.{TargetRowReads};

/// The rows of a map, and the units and words in order, are one list each.
pub fn rows_and_items_are_one_list()
    ensures rows { (o : ObjectParts) (f : FlowParts) (p : Places) (a b : List MapRow) → AreRows o f p a → AreRows o f p b → a ≡ b }
    ensures items { (points words : List (ℕ × ℕ)) (p : Places) (a b : List Item) → AreItems points words p a → AreItems points words p b → a ≡ b }
{}

/// Hardened forms of one object that put its units and words at the same places differ in the bytes of code alone.
pub fn forms_differ_in_code_alone()
    ensures { FormsAreAlike }
{}

/// MOVS r0, #5 and BX LR, each twice, are a hardened form of the two.
pub fn first_row_has_its_form()
    ensures { FirstRowHasItsForm }
{}

/// A call that does not come back has a relocation on each of its branches, and a row for where it would.
pub fn call_row_has_its_form()
    ensures { CallRowHasItsForm }
{}

/// A function whose address stands in a word of code and in data by its section's symbol gets a symbol of its own.
pub fn target_row_reads()
    ensures { TargetRowReads }
{}

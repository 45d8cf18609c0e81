//! Writes objects as relocatable files.
#![tactic(auto)]

ghost use Rattle.std.specs.Prelude.{◌≡◌, ◌↔◌, ◌<◌, ◌^◌, length, IsTrue, IfOk, OnOk};
ghost use Rattle.std.specs.List.{sum_by};
ghost use Rattle.elf_model.specs.Objects.{is_within};
ghost use Rattle.elf_model.specs.Canonical.{canonical};
ghost use Rattle.elf_model.specs.Files.{StandsFor};
ghost use Rattle.elf_model.specs.Fits.{Fits};

mod fields;
mod layout;
mod names;
mod relocs;
mod room;
mod sections;
mod symbols;
mod write;

use elf_model::{Limit, Object};
use relocs::reloc_tables;
use room::fits_bytes;
use std::alloc::{AllocError, Global};
use write::{lay_out, symtab_number, whole_file};

/// Whether the file of an object can be written: it is within the limits of every command, and its
/// sections have few enough bytes.
pub fn has_room(o: &Object) -> bool
    ensures { IsTrue result ↔ (IsTrue (is_within o.now Limit.ANY) × (sum_by (λ s. length s.bytes) o.now.sections < 2 ^ 30)) }
{
    elf_model::within(o, &Limit::ANY) && fits_bytes(o.sections())
}

/// The file of an object, whose numbers then fit their fields. It takes time in proportion to the file's
/// bytes and the object's names.
pub fn write_object(alloc: Global, o: &Object) -> Result<Vec<u8>, AllocError>
    requires room { IsTrue (is_within o.now Limit.ANY) }
    requires bytes { sum_by (λ s. length s.bytes) o.now.sections < 2 ^ 30 }
    ensures file { IfOk result (λ file. file.items ≡ canonical o.now) }
    ensures fits { OnOk result (Fits o.now) }
    ensures stands { IfOk result (λ file. StandsFor file.items o.now) }
{
    o.sound();
    let tables = reloc_tables(alloc, o.sections().len(), o.relocs())?;
    let symtab = symtab_number(o, &tables);
    let layout = lay_out(alloc, o, &tables, symtab)?;
    let file = whole_file(alloc, &layout, symtab, o.flags() as usize)?;
    Ok(file)
}

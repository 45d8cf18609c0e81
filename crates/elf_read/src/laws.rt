//! Laws of the files that are read. The functions do nothing: their contracts are the laws.

ghost use Rattle.std.specs.Prelude.{◌≡◌, List, IsTrue};
ghost use Rattle.elf_model.specs.declared.objects.MapRow.{MapRow};
ghost use Rattle.elf_model.specs.declared.refusals.Limit.{Limit};
ghost use Rattle.elf_model.specs.Objects.{ObjectParts, is_object};
ghost use Rattle.elf_model.specs.Canonical.{canonical};
ghost use Rattle.elf_model.specs.Fits.{Fits};
ghost use Rattle.elf_model.specs.Maps.{HasMap};
ghost use Rattle.elf_read.specs.Faults.{IsFaultless, dropped_count};
ghost use Rattle.elf_read.specs.Written.{Meets};

/// The file that is written for an object has no fault under a limit that the object meets, and nothing
/// of it is dropped. So reading it gives the object again.
pub fn written_files_are_faultless()
    ensures { (o : ObjectParts) (l : Limit) → IsTrue (is_object o) → Fits o → Meets o l → IsFaultless (canonical o) l × (dropped_count (canonical o) ≡ 0) }
{}

/// An object has one address map at most.
pub fn object_has_one_map()
    ensures { (o : ObjectParts) (rows others : List MapRow) → HasMap o rows → HasMap o others → rows ≡ others }
{}

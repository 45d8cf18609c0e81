//! The first section of a kind that is not handled.

ghost use Rattle.std.specs.Prelude.{◌≡◌, ◌<◌, ◌↔◌, ◌^◌, ℕ, length, IsTrue};
ghost use Rattle.elf_model.specs.declared.refusals.Refusal.TheVariants.{SectionKind};
ghost use Rattle.elf_model.specs.Fields.{same_name};
ghost use Rattle.elf_model.specs.Files.{section_name};
ghost use Rattle.elf_model.specs.Maps.{map_name};
ghost use Rattle.elf_read.specs.Faults.{Fault, IsHeader, is_map};
ghost use Rattle.elf_read.specs.HeaderFaults.{IsTabled};
ghost use Rattle.elf_read.specs.Keeping.{kind_tests};
ghost use Rattle.elf_read.specs.Places.{IsLowest, first_of};

use crate::headers::{count, header_at, place};
use crate::keeping::{is_dropped, name_start};
use crate::places::Place;
use elf_model::numbers::{NOBITS, REL};
use elf_model::{Limit, is_alloc, is_exec, is_memory_kind, is_refused_kind, is_table, is_writable};

/// Whether the limit is that of `harden`.
fn is_input_limit(limit: &Limit) -> bool
    ensures { IsTrue result ↔ (limit.now ≡ Limit.INPUT) }
{
    *limit == Limit::INPUT
}

/// Whether a section has the name of an address map.
fn has_map_name(bytes: &[u8], h: usize) -> bool
    requires tabled { IsTabled bytes.now }
    requires listed { IsHeader bytes.now h }
    ensures { result ≡ same_name (section_name bytes.now h) map_name }
{
    name_start(bytes, h, 15) == b".skipguard.map".as_slice()
}

/// Whether a section is an address map, by its name. Those of relocation sections are not looked at.
fn is_map(bytes: &[u8], h: usize) -> bool
    requires tabled { IsTabled bytes.now }
    requires listed { IsHeader bytes.now h }
    ensures { result ≡ is_map bytes.now h }
{
    let header = header_at(bytes, h);
    header.kind != REL && has_map_name(bytes, h)
}

/// The first offset of a section header, from its start, at which it is of no kind that is handled.
fn kind_fault(bytes: &[u8], h: usize, input: bool) -> Option<u32>
    requires tabled { IsTabled bytes.now }
    requires listed { IsHeader bytes.now h }
    ensures { result ≡ first_of (kind_tests bytes.now input h) }
{
    let header = header_at(bytes, h);
    if input && is_map(bytes, h) {
        return Some(0);
    }
    if is_refused_kind(header.kind)
        || is_alloc(header.flags)
            && (!is_memory_kind(header.kind) && (is_table(header.kind) || !is_dropped(bytes, h)))
    {
        return Some(4);
    }
    if is_exec(header.flags) && (is_writable(header.flags) || header.kind == NOBITS) {
        return Some(8);
    }
    None
}

/// The first place at which a section is of a kind that is not handled.
pub(crate) fn first_bad_kind(bytes: &[u8], limit: &Limit) -> Option<Place>
    requires tabled { IsTabled bytes.now }
    requires small { length bytes.now < 2 ^ 32 }
    ensures { IsLowest (Fault bytes.now limit.now SectionKind) result }
{
    let input = is_input_limit(limit);
    for h in 1..count(bytes) {
        if let Some(field) = kind_fault(bytes, h, input) {
            let offset = place(bytes, h) as u32 + field;
            let section = h as u32;
            return Some(Place { section, offset });
        }
    }
    None
}

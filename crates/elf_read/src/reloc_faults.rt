//! The first relocation that is wrong.

ghost use Rattle.std.specs.Prelude.{◌≡◌, ◌≤◌, ◌<◌, ◌+◌, ◌/◌, ◌%◌, ◌^◌, ◌==◌, ◌||◌, ℕ, nat_le, length, true, IfOk, IfNone};
ghost use Rattle.elf_model.specs.declared.refusals.Limit.{Limit};
ghost use Rattle.elf_model.specs.declared.refusals.Refusal.TheVariants.{BadReloc};
ghost use Rattle.elf_model.specs.Fields.{word_at};
ghost use Rattle.elf_model.specs.Objects.{code_width};
ghost use Rattle.elf_read.specs.Faults.{Fault, IsHeader};
ghost use Rattle.elf_read.specs.HeaderFaults.{IsTabled};
ghost use Rattle.elf_read.specs.Keeping.{kept_flags, symbol_flags, flag_at, is_kept_relocs, HasHomes};
ghost use Rattle.elf_read.specs.Places.{IsLowest, first_of};
ghost use Rattle.elf_read.specs.RelocFaults.{AreTaken, EntryFault, TargetFault, RelocFault, IsLowestIn, entry_tests};

use crate::headers::{count, header_at, place, word};
use crate::keeping::flag;
use crate::limits::is_kept_relocs;
use crate::places::{Place, lower};
use elf_model::code_width;
use elf_model::numbers::NOBITS;
use std::alloc::{AllocError, Global};
use std::collections::BTreeSet;

/// Whether the relocation at a place of the file changes bytes of so many.
fn is_placed(bytes: &[u8], r: usize, room: u32) -> bool
    requires { r + 8 ≤ length bytes.now }
    ensures { result ≡ nat_le (word_at bytes.now r + code_width (word_at bytes.now (r + 4) % 256)) room }
{
    let code = (word(bytes, r + 4) % 256) as u8;
    word(bytes, r) as u64 + code_width(code) as u64 <= room as u64
}

/// Whether the relocation at a place of the file names a symbol that is kept, or needs none.
fn names_symbol(bytes: &[u8], r: usize, symbols: &[bool]) -> bool
    requires { r + 8 ≤ length bytes.now }
    ensures { result ≡ ((word_at bytes.now (r + 4) % 256 == 0) || flag_at symbols.now (word_at bytes.now (r + 4) / 256)) }
{
    let info = word(bytes, r + 4);
    info % 256 == 0 || flag(symbols, info as usize / 256)
}

/// The first offset of an entry, from its start, at which it is wrong; `added` says that its place is
/// not that of a relocation before.
fn entry_fault(bytes: &[u8], r: usize, room: u32, symbols: &[bool], added: bool) -> Option<u32>
    requires { r + 8 ≤ length bytes.now }
    ensures { result ≡ first_of (entry_tests bytes.now room symbols.now added r) }
{
    if !added || !is_placed(bytes, r, room) {
        Some(0)
    } else if !names_symbol(bytes, r, symbols) {
        Some(4)
    } else {
        None
    }
}

/// The first bad entry of a header of relocations. `taken` has the places of all entries before.
fn bad_entry(
    bytes: &[u8],
    h: usize,
    symbols: &[bool],
    taken: &mut BTreeSet<(u32, u32)>,
) -> Result<Option<Place>, AllocError>
    requires tabled { IsTabled bytes.now }
    requires small { length bytes.now < 2 ^ 32 }
    requires homes { HasHomes bytes.now }
    requires symbols { symbols.now ≡ symbol_flags bytes.now }
    requires listed { IsHeader bytes.now h }
    requires kind { is_kept_relocs bytes.now h ≡ true }
    requires taken { AreTaken bytes.now h 0 taken.old }
    ensures found { IfOk result (IsLowestIn (EntryFault bytes.now h) h) }
    ensures taken { IfOk result (λ r. IfNone r (AreTaken bytes.now (h + 1) 0 taken.new)) }
{
    let header = header_at(bytes, h);
    let room = header_at(bytes, header.info as usize).size;
    for j in 0..header.size as usize / 8 {
        let r = header.offset as usize + 8 * j;
        let added = taken.insert((header.info, word(bytes, r)))?;
        if let Some(field) = entry_fault(bytes, r, room, symbols, added) {
            return Ok(Some(Place {
                section: h as u32,
                offset: r as u32 + field,
            }));
        }
    }
    Ok(None)
}

/// The place of a target that has no bytes.
fn bad_target(bytes: &[u8], h: usize) -> Option<Place>
    requires tabled { IsTabled bytes.now }
    requires small { length bytes.now < 2 ^ 32 }
    requires listed { IsHeader bytes.now h }
    requires kind { is_kept_relocs bytes.now h ≡ true }
    ensures { IsLowestIn (TargetFault bytes.now h) h result }
{
    let n = count(bytes);
    prove!(h < n);
    let target = header_at(bytes, h).info as usize;
    if header_at(bytes, target).kind != NOBITS {
        return None;
    }
    Some(Place {
        section: h as u32,
        offset: place(bytes, h) as u32 + 28,
    })
}

/// The first place at which a header's relocations are wrong.
fn reloc_fault(
    bytes: &[u8],
    h: usize,
    kept: &[bool],
    symbols: &[bool],
    taken: &mut BTreeSet<(u32, u32)>,
) -> Result<Option<Place>, AllocError>
    requires tabled { IsTabled bytes.now }
    requires small { length bytes.now < 2 ^ 32 }
    requires homes { HasHomes bytes.now }
    requires kept { kept.now ≡ kept_flags bytes.now }
    requires symbols { symbols.now ≡ symbol_flags bytes.now }
    requires listed { IsHeader bytes.now h }
    requires taken { AreTaken bytes.now h 0 taken.old }
    ensures found { IfOk result (IsLowestIn (RelocFault bytes.now h) h) }
    ensures taken { IfOk result (λ r. IfNone r (AreTaken bytes.now (h + 1) 0 taken.new)) }
{
    if !is_kept_relocs(bytes, kept, h) {
        return Ok(None);
    }
    let entry = bad_entry(bytes, h, symbols, taken)?;
    Ok(lower(bad_target(bytes, h), entry))
}

/// The first place at which a relocation of a section that is kept is wrong.
pub(crate) fn first_bad_reloc(
    alloc: Global,
    bytes: &[u8],
    kept: &[bool],
    symbols: &[bool],
) -> Result<Option<Place>, AllocError>
    requires tabled { IsTabled bytes.now }
    requires small { length bytes.now < 2 ^ 32 }
    requires homes { HasHomes bytes.now }
    requires kept { kept.now ≡ kept_flags bytes.now }
    requires symbols { symbols.now ≡ symbol_flags bytes.now }
    ensures { IfOk result (λ r. (l : Limit) → IsLowest (Fault bytes.now l BadReloc) r) }
{
    let mut taken = BTreeSet::new(alloc);
    for h in 1..count(bytes) {
        let found = reloc_fault(bytes, h, kept, symbols, &mut taken)?;
        if found.is_some() {
            return Ok(found);
        }
    }
    Ok(None)
}

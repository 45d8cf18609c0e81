//! The places of relocations.

ghost use Rattle.std.specs.Prelude.{◌≡◌, ◌↔◌, ◌≤◌, true, length, slice_get, IsTrue};
ghost use Rattle.std.specs.BTreeMap.{get};
ghost use Rattle.std.specs.BTreeSet.{contains};
ghost use Rattle.elf_model.specs.Fields.{half_at};
ghost use Rattle.elf_model.specs.Objects.{is_within, is_reloc};
ghost use Rattle.elf_model.specs.Ranges.{is_long};
ghost use Rattle.code_ranges.specs.Spans.{place_cmp};
ghost use Rattle.reloc_places.specs.Starts.{instr_at as whole_instr_at};
ghost use Rattle.reloc_places.specs.Relocations.{IsPlace, is_undefined as is_undefined_symbol, is_open_jump as leaves_open};
ghost use Rattle.reloc_places.specs.Placement.{holds_data as is_data_section, fits_answer, IsStraight};
ghost use Rattle.reloc_places.specs.Tables.{AreStarts, AreWords};

use crate::addends::addend;
use crate::instructions::{bytes_of, instr_at, length_at};
use crate::kinds::{fits_kind, is_jump, is_word};
use elf_model::{Home, Limit, Object, Reloc, is_data};
use std::collections::{BTreeMap, BTreeSet};

/// Whether a section is one of data in memory.
fn holds_data(o: &Object, section: u32) -> bool
    ensures { result ≡ is_data_section (slice_get o.now.sections section) }
{
    match o.sections().get(section as usize) {
        None => false,
        Some(s) => is_data(s),
    }
}

/// Whether the instruction at a relocation's place is one that its kind is of.
fn fits_instr(bytes: &[u8], end: u32, r: &Reloc) -> bool
    requires before { r.now.offset ≤ end }
    requires inside { end ≤ length bytes.now }
    ensures { result ≡ fits_answer r.now.kind (is_long (half_at bytes.now r.now.offset)) (whole_instr_at bytes.now end r.now.offset 0) }
{
    match instr_at(bytes, end, r.offset, 0) {
        Ok(i) => fits_kind(r.kind, length_at(bytes, r.offset) == 4, &i),
        Err(_) => false,
    }
}

/// Whether a relocation of its kind may stand in its place.
pub(crate) fn is_place(
    o: &Object,
    starts: &BTreeMap<(u32, u32), u32>,
    words: &BTreeSet<(u32, u32)>,
    r: &Reloc,
) -> bool
    requires within { IsTrue (is_within o.now Limit.ANY) }
    requires starts { AreStarts o.now (λ j x. get place_cmp starts.now (j, x)) }
    requires words { AreWords o.now (λ j w. contains place_cmp words.now (j, w)) }
    ensures { IsTrue result ↔ IsPlace o.now r.now }
{
    o.sound();
    if is_word(r.kind) {
        holds_data(o, r.section) || words.contains(&(r.section, r.offset))
    } else {
        match starts.get(&(r.section, r.offset)) {
            None => false,
            Some(end) => fits_instr(bytes_of(o, r.section), *end, r),
        }
    }
}

/// Whether the object does not define a symbol.
fn is_undefined(o: &Object, symbol: u32) -> bool
    ensures { result ≡ is_undefined_symbol (slice_get o.now.symbols symbol) }
{
    match o.symbols().get(symbol as usize) {
        None => false,
        Some(s) => match s.home {
            Home::Undefined => true,
            Home::Absolute => false,
            Home::Section(_) => false,
        },
    }
}

/// A branch or call to a symbol that the object doesn't define.
fn is_open_jump(o: &Object, r: &Reloc) -> bool
    ensures { result ≡ leaves_open o.now r.now }
{
    is_jump(r.kind) && is_undefined(o, r.symbol)
}

/// Whether a relocation of a branch or call to an undefined symbol leads to the symbol itself.
pub(crate) fn is_straight(o: &Object, r: &Reloc) -> bool
    requires within { IsTrue (is_within o.now Limit.ANY) }
    requires good { is_reloc o.now.sections o.now.symbols r.now ≡ true }
    requires place { IsPlace o.now r.now }
    ensures { IsTrue result ↔ IsStraight o.now r.now }
{
    o.sound();
    !is_open_jump(o, r) || addend(bytes_of(o, r.section), r) == 0xFFFF_FFFC
}

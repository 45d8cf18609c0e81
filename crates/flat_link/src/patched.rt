//! Code and data with the numbers of relocations in their places.

ghost use Rattle.std.specs.Prelude.{◌≡◌, ◌+◌, ◌-◌, true, false, map, length};
ghost use Rattle.elf_model.specs.Objects.{is_code as is_code_section, is_data as is_data_section, place_width};
ghost use Rattle.mark_word.specs.Words.{bare};
ghost use Rattle.reloc_places.specs.Relocations.{is_word as is_word_kind};
ghost use Rattle.thumb_table.specs.Layouts.{code_bytes_of, data_bytes_of};
ghost use Rattle.thumb_table.specs.Links.{place_of as place_of_link, full as full_of_link, mark_of as mark_of_link, is_in_range as is_in_range_link, IsWritten, AreWritten};
ghost use Rattle.flat_link.specs.Layout.{IsLayout, parts_in};
ghost use Rattle.flat_link.specs.Sites.{link_of};
ghost use Rattle.flat_link.specs.Ties.{IsTie, AreTies, AreInRange};
ghost use Rattle.flat_link.specs.Patches.{IsPut, AreLaid};

use crate::layout::Layout;
use crate::numbers::{full, leads_to_code, place_of};
use crate::patches::{put_cells, put_code, put_word};
use crate::renumber::code_for;
use crate::ties::Tie;
use elf_model::{is_code, is_data};
use mark_word::{Cell, Word, pieces};
use reloc_places::is_word;

/// Puts the word of a relocation in code into its place.
fn patch_word(bytes: &mut [u8], layout: &Layout, t: &Tie)
    requires layout { IsLayout layout.now }
    requires tie { IsTie layout.now (link_of t.now) }
    requires code { is_code_section t.now.lot.section.now ≡ true }
    requires word { is_word_kind t.now.site.reloc.now.kind ≡ true }
    requires size { length bytes.old ≡ length (code_bytes_of layout.now.objects.now layout.now.at) }
    ensures put { IsPut bytes.old (place_of_link (link_of t.now) - layout.now.at.base) (place_width t.now.site.reloc.now.kind) bytes.new }
    ensures written { IsWritten (parts_in layout.now) bytes.new layout.now.at.base (link_of t.now) }
{
    let x = place_of(layout, t) - layout.at.base;
    put_word(bytes, x as usize, full(layout, t));
}

/// Puts the number of an instruction in code into its place.
fn patch_instr(bytes: &mut [u8], layout: &Layout, t: &Tie)
    requires layout { IsLayout layout.now }
    requires tie { IsTie layout.now (link_of t.now) }
    requires range { is_in_range_link (parts_in layout.now) (link_of t.now) ≡ true }
    requires code { is_code_section t.now.lot.section.now ≡ true }
    requires instr { is_word_kind t.now.site.reloc.now.kind ≡ false }
    requires size { length bytes.old ≡ length (code_bytes_of layout.now.objects.now layout.now.at) }
    ensures put { IsPut bytes.old (place_of_link (link_of t.now) - layout.now.at.base) (place_width t.now.site.reloc.now.kind) bytes.new }
    ensures written { IsWritten (parts_in layout.now) bytes.new layout.now.at.base (link_of t.now) }
{
    let x = place_of(layout, t) - layout.at.base;
    match code_for(layout, t) {
        None => {}
        Some(code) => put_code(bytes, x as usize, code),
    }
}

/// Puts the number of a relocation in code into its place.
fn patch_code(bytes: &mut [u8], layout: &Layout, t: &Tie)
    requires layout { IsLayout layout.now }
    requires tie { IsTie layout.now (link_of t.now) }
    requires range { is_in_range_link (parts_in layout.now) (link_of t.now) ≡ true }
    requires code { is_code_section t.now.lot.section.now ≡ true }
    requires size { length bytes.old ≡ length (code_bytes_of layout.now.objects.now layout.now.at) }
    ensures put { IsPut bytes.old (place_of_link (link_of t.now) - layout.now.at.base) (place_width t.now.site.reloc.now.kind) bytes.new }
    ensures written { IsWritten (parts_in layout.now) bytes.new layout.now.at.base (link_of t.now) }
{
    if is_word(t.site.reloc.kind) {
        patch_word(bytes, layout, t);
    } else {
        patch_instr(bytes, layout, t);
    }
}

/// Puts the numbers of relocations in code into their places.
pub(crate) fn patch_all_code(bytes: &mut [u8], layout: &Layout, ties: &[Tie])
    requires layout { IsLayout layout.now }
    requires ties { AreTies layout.now ties.now }
    requires range { AreInRange layout.now ties.now }
    requires size { length bytes.old ≡ length (code_bytes_of layout.now.objects.now layout.now.at) }
    ensures { AreLaid (λ l. is_code_section l.part.section) (λ all l. IsWritten (parts_in layout.now) all layout.now.at.base l) layout.now.at.base (map link_of ties.now) 0 bytes.old bytes.new }
{
    for t in ties {
        if is_code(t.lot.section) {
            patch_code(bytes, layout, t);
        }
    }
}

/// The word that a relocation in data makes.
fn word_of(layout: &Layout, t: &Tie) -> Word
    requires layout { IsLayout layout.now }
    requires tie { IsTie layout.now (link_of t.now) }
    requires datum { is_data_section t.now.lot.section.now ≡ true }
    ensures { result ≡ record { bits = full_of_link (parts_in layout.now) (link_of t.now); mark = mark_of_link (parts_in layout.now) (link_of t.now) } }
{
    let full = full(layout, t);
    if leads_to_code(layout, t) {
        Word::entry(full)
    } else {
        Word::plain(full)
    }
}

/// Puts the word of a relocation in data into its place.
fn patch_data(cells: &mut [Cell], layout: &Layout, t: &Tie)
    requires layout { IsLayout layout.now }
    requires tie { IsTie layout.now (link_of t.now) }
    requires datum { is_data_section t.now.lot.section.now ≡ true }
    requires size { length cells.old ≡ length (data_bytes_of layout.now.objects.now layout.now.at) }
    ensures put { IsPut cells.old (place_of_link (link_of t.now) - (layout.now.at.base + layout.now.at.room)) (place_width t.now.site.reloc.now.kind) cells.new }
    ensures written { AreWritten (parts_in layout.now) cells.new (layout.now.at.base + layout.now.at.room) (link_of t.now) }
{
    let x = place_of(layout, t) - (layout.at.base + layout.at.room);
    put_cells(cells, x as usize, &pieces(word_of(layout, t)));
}

/// Puts the words of relocations in data into their places.
pub(crate) fn patch_all_data(cells: &mut [Cell], layout: &Layout, ties: &[Tie])
    requires layout { IsLayout layout.now }
    requires ties { AreTies layout.now ties.now }
    requires size { length cells.old ≡ length (data_bytes_of layout.now.objects.now layout.now.at) }
    ensures { AreLaid (λ l. is_data_section l.part.section) (λ all l. AreWritten (parts_in layout.now) all (layout.now.at.base + layout.now.at.room) l) (layout.now.at.base + layout.now.at.room) (map link_of ties.now) (bare 0) cells.old cells.new }
{
    for t in ties {
        if is_data(t.lot.section) {
            patch_data(cells, layout, t);
        }
    }
}

//! The image of objects at a placement.

ghost use Rattle.std.specs.Prelude.{◌≡◌, ◌<◌, ◌≤◌, ◌+◌, ◌^◌, ℕ, None, map, length, All, IfOk, IfErr, IsTrue};
ghost use Rattle.std.specs.List.{list_all};
ghost use Rattle.elf_model.specs.declared.objects.Reloc.{Reloc};
ghost use Rattle.elf_model.specs.Fields.{byte_at};
ghost use Rattle.elf_model.specs.Objects.{is_object, is_within};
ghost use Rattle.thumb_table.specs.Layouts.{IsPlacement, as_part};
ghost use Rattle.thumb_table.specs.Names.{Defined, all_symbols};
ghost use Rattle.thumb_table.specs.Images.{IsImage};
ghost use Rattle.code_ranges.specs.Spots.{spot_in};
ghost use Rattle.thumb_table.specs.LinkFaults.{IsLinkDenial, IsSecond, NamesNothing, home_section as section_of};
ghost use Rattle.flat_link.specs.Known.{defined_of, AreNames};
ghost use Rattle.flat_link.specs.Layout.{IsLayout, parts_in};
ghost use Rattle.flat_link.specs.Made.{IsMadeCode, IsMadeMemory, IsMade};
ghost use Rattle.flat_link.specs.Misplaced.{IsFirstMisplaced};
ghost use Rattle.flat_link.specs.Sites.{sited_of, all_sited};
ghost use Rattle.flat_link.specs.Ties.{AreTies, AreInRange};

use crate::bytes::{bytes_of, cells_of, push_parts};
use crate::entries::entries_of;
use crate::known::{Known, all_known};
use crate::layout::{Layout, lay};
use crate::marks::marks_of;
use crate::meanings::first_undefined;
use crate::misplaced::first_misplaced;
use crate::names::{Names, names_of};
use crate::patched::{patch_all_code, patch_all_data};
use crate::reaches::first_out;
use crate::seconds::{home_section, second_of};
use crate::sites::{Site, all_sites};
use crate::stops::stops_of;
use crate::ties::{Tie, ties_of};
use elf_model::{Deny, Limit, Object, Refusal, Spot};
use std::alloc::{AllocError, Global};
use thumb_table::{CodeBytes, Image, Memory, Part, Placement};

/// All objects are sound.
fn sound(objects: &[Object])
    ensures { IsTrue (list_all is_object objects.now) }
{
    for o in objects {
        o.sound();
    }
}

fn parts_of(alloc: Global, layout: &Layout) -> Result<Vec<Part>, AllocError>
    requires { IsLayout layout.now }
    ensures { IfOk result (λ parts. parts.items ≡ map as_part (parts_in layout.now)) }
{
    let mut parts = Vec::new(alloc);
    push_parts(&mut parts, &layout.code)?;
    push_parts(&mut parts, &layout.data)?;
    Ok(parts)
}

/// Each of them is below 256.
fn are_small(bytes: &[u8])
    ensures { (x : ℕ) → byte_at bytes.now x < 2 ^ 8 }
{}

fn code_of(
    alloc: Global,
    layout: &Layout,
    all: &[Known],
    ties: &[Tie],
) -> Result<CodeBytes, AllocError>
    requires layout { IsLayout layout.now }
    requires all { map defined_of all.now ≡ all_symbols 0 layout.now.objects.now }
    requires ties { AreTies layout.now ties.now }
    requires range { AreInRange layout.now ties.now }
    ensures { IfOk result (λ code. IsMadeCode layout.now.objects.now layout.now.at code) }
{
    let base = layout.at.base;
    let mut bytes = bytes_of(alloc, &layout.code, base as u64)?;
    patch_all_code(&mut bytes, layout, ties);
    are_small(&bytes);
    let marks = marks_of(alloc, layout, ties)?;
    let stops = stops_of(alloc, layout, all)?;
    Ok(CodeBytes::new(base, bytes, marks, stops))
}

fn memory_of(alloc: Global, layout: &Layout, ties: &[Tie]) -> Result<Memory, AllocError>
    requires layout { IsLayout layout.now }
    requires ties { AreTies layout.now ties.now }
    ensures { IfOk result (λ memory. IsMadeMemory layout.now.objects.now layout.now.at memory) }
{
    let base = layout.at.base + layout.at.room;
    let bytes = bytes_of(alloc, &layout.data, base as u64)?;
    let mut cells = cells_of(alloc, &bytes)?;
    patch_all_data(&mut cells, layout, ties);
    Ok(Memory::new(base, cells))
}

fn image_of<'a>(
    alloc: Global,
    layout: &Layout<'a>,
    names: &Names<'a>,
    all: &[Known<'a>],
    ties: &[Tie<'a>],
) -> Result<Image, AllocError>
    requires layout { IsLayout layout.now }
    requires names { AreNames names.now }
    requires same { names.now.objects.now ≡ layout.now.objects.now }
    requires all { map defined_of all.now ≡ all_symbols 0 layout.now.objects.now }
    requires ties { AreTies layout.now ties.now }
    requires range { AreInRange layout.now ties.now }
    ensures { IfOk result (λ image. IsMade layout.now.objects.now layout.now.at image) }
{
    let code = code_of(alloc, layout, all, ties)?;
    let memory = memory_of(alloc, layout, ties)?;
    let parts = parts_of(alloc, layout)?;
    let entries = entries_of(alloc, names, layout, all)?;
    Ok(Image::new(code, memory, layout.at.room, parts, entries))
}

fn undefined(site: &Site) -> Deny
    ensures { result ≡ Deny.Refused (spot_in (Refusal.Undefined site.now.reloc.now.symbol) site.now.file site.now.reloc.now.section 0) }
{
    Deny::Refused(Spot {
        refusal: Refusal::Undefined {
            symbol: site.reloc.symbol,
        },
        file: site.file,
        section: site.reloc.section,
        offset: 0,
    })
}

fn duplicate(second: &Known) -> Deny
    ensures { result ≡ Deny.Refused (spot_in (Refusal.Duplicate second.now.index) second.now.object (section_of second.now.symbol.now.home) 0) }
{
    Deny::Refused(Spot {
        refusal: Refusal::Duplicate {
            symbol: second.index,
        },
        file: second.object,
        section: home_section(second.symbol.home),
        offset: 0,
    })
}

fn out_of_range(t: &Tie) -> Deny
    ensures { result ≡ Deny.Refused (spot_in Refusal.RelocRange t.now.site.file t.now.site.reloc.now.section t.now.site.reloc.now.offset) }
{
    Deny::Refused(Spot {
        refusal: Refusal::RelocRange,
        file: t.site.file,
        section: t.site.reloc.section,
        offset: t.site.reloc.offset,
    })
}

/// The image of objects in their places, or that a number does not fit its place.
fn link_laid<'a>(
    alloc: Global,
    layout: &Layout<'a>,
    names: &Names<'a>,
    all: &[Known<'a>],
    sites: &[Site<'a>],
) -> Result<Image, Deny>
    requires layout { IsLayout layout.now }
    requires names { AreNames names.now }
    requires same { names.now.objects.now ≡ layout.now.objects.now }
    requires all { map defined_of all.now ≡ all_symbols 0 layout.now.objects.now }
    requires sites { map sited_of sites.now ≡ all_sited 0 layout.now.objects.now }
    requires right { IsFirstMisplaced layout.now.objects.now None }
    requires named { (i k : ℕ) (r : Reloc) → ¬ NamesNothing layout.now.objects.now i k r }
    requires once { (d : Defined) → ¬ IsSecond layout.now.objects.now d }
    ensures image { IfOk result (λ image. IsImage layout.now.objects.now layout.now.at image) }
    ensures refused { IfErr result (λ why. IsLinkDenial layout.now.objects.now layout.now.at why) }
{
    let ties = ties_of(alloc, layout, names, sites)?;
    match first_out(layout, &ties) {
        Some(t) => Err(out_of_range(&t)),
        None => Ok(image_of(alloc, layout, names, all, &ties)?),
    }
}

/// The image of objects whose names are defined once, or why there is none.
fn link_once<'a>(
    alloc: Global,
    at: &Placement,
    names: &Names<'a>,
    all: &[Known<'a>],
    sites: &[Site<'a>],
) -> Result<Image, Deny>
    requires few { length names.now.objects.now ≤ 16 }
    requires within { All (λ o. IsTrue (is_within o Limit.ANY)) names.now.objects.now }
    requires sound { IsTrue (list_all is_object names.now.objects.now) }
    requires placement { IsPlacement at.now }
    requires names { AreNames names.now }
    requires all { map defined_of all.now ≡ all_symbols 0 names.now.objects.now }
    requires sites { map sited_of sites.now ≡ all_sited 0 names.now.objects.now }
    requires right { IsFirstMisplaced names.now.objects.now None }
    requires named { (i k : ℕ) (r : Reloc) → ¬ NamesNothing names.now.objects.now i k r }
    requires once { (d : Defined) → ¬ IsSecond names.now.objects.now d }
    ensures image { IfOk result (λ image. IsImage names.now.objects.now at.now image) }
    ensures refused { IfErr result (λ why. IsLinkDenial names.now.objects.now at.now why) }
{
    match lay(alloc, names.objects, at) {
        Ok(layout) => link_laid(alloc, &layout, names, all, sites),
        Err(why) => Err(why),
    }
}

/// The image of objects whose relocations' symbols mean something, or why there is none.
fn link_named<'a>(
    alloc: Global,
    at: &Placement,
    names: &Names<'a>,
    all: &[Known<'a>],
    sites: &[Site<'a>],
) -> Result<Image, Deny>
    requires few { length names.now.objects.now ≤ 16 }
    requires within { All (λ o. IsTrue (is_within o Limit.ANY)) names.now.objects.now }
    requires sound { IsTrue (list_all is_object names.now.objects.now) }
    requires placement { IsPlacement at.now }
    requires names { AreNames names.now }
    requires all { map defined_of all.now ≡ all_symbols 0 names.now.objects.now }
    requires sites { map sited_of sites.now ≡ all_sited 0 names.now.objects.now }
    requires right { IsFirstMisplaced names.now.objects.now None }
    requires named { (i k : ℕ) (r : Reloc) → ¬ NamesNothing names.now.objects.now i k r }
    ensures image { IfOk result (λ image. IsImage names.now.objects.now at.now image) }
    ensures refused { IfErr result (λ why. IsLinkDenial names.now.objects.now at.now why) }
{
    match second_of(names, all) {
        Some(second) => Err(duplicate(&second)),
        None => link_once(alloc, at, names, all, sites),
    }
}

/// The image of objects whose relocations are right, or why there is none.
fn link_right(alloc: Global, objects: &[Object], at: &Placement) -> Result<Image, Deny>
    requires few { length objects.now ≤ 16 }
    requires within { All (λ o. IsTrue (is_within o Limit.ANY)) objects.now }
    requires sound { IsTrue (list_all is_object objects.now) }
    requires placement { IsPlacement at.now }
    requires right { IsFirstMisplaced objects.now None }
    ensures image { IfOk result (λ image. IsImage objects.now at.now image) }
    ensures refused { IfErr result (λ why. IsLinkDenial objects.now at.now why) }
{
    let all = all_known(alloc, objects)?;
    let names = names_of(alloc, objects, &all)?;
    let sites = all_sites(alloc, objects)?;
    match first_undefined(&names, &sites) {
        Some(site) => Err(undefined(&site)),
        None => link_named(alloc, at, &names, &all, &sites),
    }
}

/// The image of objects at a placement, or why there is none. Refuses, in this order, `RelocKind`,
/// `Undefined`, `Duplicate`, `DoesNotFit` and `RelocRange`.
pub fn link(alloc: Global, objects: &[Object], at: &Placement) -> Result<Image, Deny>
    requires few { length objects.now ≤ 16 }
    requires within { All (λ o. IsTrue (is_within o Limit.ANY)) objects.now }
    requires placement { IsPlacement at.now }
    ensures image { IfOk result (λ image. IsImage objects.now at.now image) }
    ensures refused { IfErr result (λ why. IsLinkDenial objects.now at.now why) }
{
    sound(objects);
    match first_misplaced(alloc, objects)? {
        Some(spot) => Err(Deny::Refused(spot)),
        None => link_right(alloc, objects, at),
    }
}

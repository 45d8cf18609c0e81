//! Where relocations are to stand in the hardened object.

ghost use Rattle.std.specs.Prelude.{◌≡◌, ◌+◌, ◌*◌, ◌<◌, ◌^◌, ◌++◌, length, replicate, All, IfOk, OnOk, IsPermutation};
ghost use Rattle.std.specs.Option.{option_to_list};
ghost use Rattle.std.specs.List.{zip};
ghost use Rattle.std.specs.List.Sorted.{IsSortedByKey};
ghost use Rattle.thumb_encode.specs.Encoding.{width_of};
ghost use Rattle.seq_core.specs.Places.{PlacedParts};
ghost use Rattle.code_ranges.specs.Spans.{place_cmp};
ghost use Rattle.hardened_form.specs.Carriers.{kind_on as kind_on_instr};
ghost use Rattle.branch_layout.specs.Copies.{copies_of as copies_in, bytes_of as bytes_of_width};
ghost use Rattle.emit_object.specs.UnitCopies.{is_half as is_half_instr, carries as is_carrier, copies_from};
ghost use Rattle.emit_object.specs.RelocSites.{site_of, site_place, data_site as data_site_of, data_sites, numbered as numbered_in, copy_sites, unit_sites, step_sites, word_site as word_site_of, word_sites, all_sites};
ghost use Rattle.emit_object.specs.SmallUnits.{IsSmall};

use crate::lasting::has_data;
use elf_model::{Object, Reloc, RelocKind};
use flow_recover::{Flow, PoolWord};
use reloc_places::may_fail;
use seq_core::{Goal, Layout, PlacedUnit, Step};
use std::alloc::{AllocError, Global};
use thumb_encode::Code;
use thumb_instr::Instr;

/// Where what stands for the relocation of a number is to stand: at an offset of its section, as one of a kind.
#[derive(Clone, Copy)]
pub(crate) struct Site {
    pub section: u32,
    pub at: u32,
    pub number: u32,
    pub kind: RelocKind,
}

/// Adds a site, if there is one.
fn push_site(sites: &mut Vec<Site>, site: Option<Site>) -> Result<(), AllocError>
    ensures { OnOk result (sites.new.items ≡ sites.old.items ++ option_to_list site) }
{
    match site {
        Some(s) => {
            sites.push(s)?;
            Ok(())
        }
        None => Ok(()),
    }
}

/// That of a relocation of data, which stays where it is.
fn data_site(o: &Object, number: u32, r: &Reloc) -> Option<Site>
    ensures { result ≡ data_site_of o.now number r.now }
{
    if has_data(o, r.section) {
        Some(Site {
            section: r.section,
            at: r.offset,
            number,
            kind: r.kind,
        })
    } else {
        None
    }
}

/// Adds those of data.
fn push_data(sites: &mut Vec<Site>, o: &Object) -> Result<(), AllocError>
    requires { length o.now.relocs < 2 ^ 32 }
    ensures { OnOk result (sites.new.items ≡ sites.old.items ++ data_sites o.now 0 o.now.relocs) }
{
    let mut number: u32 = 0;
    for r in o.relocs() {
        push_site(sites, data_site(o, number, r))?;
        number += 1;
    }
    Ok(())
}

/// The relocation with a number.
pub(crate) fn numbered(o: &Object, number: Option<u32>) -> Option<(u32, Reloc)>
    ensures { result ≡ numbered_in o.now number }
{
    match number {
        None => None,
        Some(n) => match o.relocs().get(n as usize) {
            None => None,
            Some(r) => Some((n, *r)),
        },
    }
}

/// Whether an instruction is MOVW or MOVT.
fn is_half(i: &Instr) -> bool
    ensures { result ≡ is_half_instr i.now }
{
    match i {
        Instr::Half(_) => true,
        _ => false,
    }
}

/// Whether a step carries the relocation of its point.
fn carries(step: &Step) -> bool
    ensures { result ≡ is_carrier step.now }
{
    is_half(&step.instr) || step.goal == Goal::Target
}

/// The kind of a relocation on an instruction.
fn kind_on(i: &Instr, kind: RelocKind) -> RelocKind
    ensures { result ≡ kind_on_instr i.now kind }
{
    match i {
        Instr::Call(_) => RelocKind::ThmCall,
        Instr::Branch(b) => {
            if may_fail(b.cond) {
                RelocKind::ThmJump19
            } else {
                RelocKind::ThmJump24
            }
        }
        _ => kind,
    }
}

/// The bytes of a code.
fn bytes_of(code: Code) -> u32
    ensures { result ≡ bytes_of_width (width_of code) }
{
    match code {
        Code::Half(_) => 2,
        Code::Full(_, _) => 4,
    }
}

/// Adds a step as often as it stands.
fn push_copies(copies: &mut Vec<Step>, step: &Step) -> Result<(), AllocError>
    ensures { OnOk result (copies.new.items ≡ copies.old.items ++ replicate step.now.copies step.now) }
{
    copies.resize(copies.len() + step.copies as usize, *step)
}

/// The steps, each as often as it stands.
fn copies_of(alloc: Global, steps: &[Step]) -> Result<Vec<Step>, AllocError>
    ensures { IfOk result (λ v. v.items ≡ copies_in steps.now) }
{
    let mut copies = Vec::new(alloc);
    for step in steps {
        push_copies(&mut copies, step)?;
    }
    Ok(copies)
}

/// Adds those of the copies, from an offset on, that carry a relocation.
fn push_carriers(
    sites: &mut Vec<Site>,
    number: u32,
    r: &Reloc,
    start: u32,
    copies: &[Step],
    codes: &[Code],
) -> Result<(), AllocError>
    requires count { length codes.now ≡ length copies.now }
    requires low { start + 4 * length codes.now < 2 ^ 32 }
    ensures { OnOk result (sites.new.items ≡ sites.old.items ++ copy_sites number r.now (copies_from start copies.now codes.now)) }
{
    let mut at = start;
    for k in 0..copies.len() {
        if carries(&copies[k]) {
            sites.push(Site {
                section: r.section,
                at,
                number,
                kind: kind_on(&copies[k].instr, r.kind),
            })?;
        }
        at += bytes_of(codes[k]);
    }
    Ok(())
}

/// Adds those of a unit.
fn push_unit(
    sites: &mut Vec<Site>,
    alloc: Global,
    o: &Object,
    u: &PlacedUnit,
) -> Result<(), AllocError>
    requires { IsSmall u.now }
    ensures { OnOk result (sites.new.items ≡ sites.old.items ++ unit_sites o.now u.now) }
{
    match numbered(o, u.unit().reloc) {
        None => Ok(()),
        Some((number, r)) => {
            let copies = copies_of(alloc, u.unit().seq.steps())?;
            push_carriers(sites, number, &r, u.start(), &copies, u.codes())
        }
    }
}

/// Adds those of units.
fn push_units(
    sites: &mut Vec<Site>,
    alloc: Global,
    o: &Object,
    units: &[PlacedUnit],
) -> Result<(), AllocError>
    requires { All IsSmall units.now }
    ensures { OnOk result (sites.new.items ≡ sites.old.items ++ step_sites o.now units.now) }
{
    for u in units {
        push_unit(sites, alloc, o, u)?;
    }
    Ok(())
}

/// That of a word of code which stands at an offset.
fn word_site(o: &Object, w: &PoolWord, at: u32) -> Option<Site>
    ensures { result ≡ word_site_of o.now (w.now, at) }
{
    match numbered(o, w.reloc) {
        None => None,
        Some((number, r)) => Some(Site {
            section: r.section,
            at,
            number,
            kind: r.kind,
        }),
    }
}

/// Adds those of words of code.
fn push_words(
    sites: &mut Vec<Site>,
    o: &Object,
    words: &[PoolWord],
    places: &[u32],
) -> Result<(), AllocError>
    requires { length places.now ≡ length words.now }
    ensures { OnOk result (sites.new.items ≡ sites.old.items ++ word_sites o.now (zip words.now places.now)) }
{
    for k in 0..words.len() {
        push_site(sites, word_site(o, &words[k], places[k]))?;
    }
    Ok(())
}

/// Where all relocations are to stand, by section and offset.
pub(crate) fn reloc_sites(
    alloc: Global,
    o: &Object,
    f: &Flow,
    l: &Layout,
) -> Result<Vec<Site>, AllocError>
    requires few { length o.now.relocs < 2 ^ 32 }
    requires small { All IsSmall l.now.units }
    requires words { length l.now.words ≡ length f.now.words }
    ensures same { IfOk result (λ v. IsPermutation (all_sites o.now f.now l.now) v.items) }
    ensures sorted { IfOk result (λ v. IsSortedByKey site_place place_cmp v.items) }
{
    let mut sites = Vec::new(alloc);
    push_data(&mut sites, o)?;
    push_units(&mut sites, alloc, o, l.units())?;
    push_words(&mut sites, o, f.words(), l.words())?;
    sites.sort_unstable_by_key(|s| (s.section, s.at));
    Ok(sites)
}

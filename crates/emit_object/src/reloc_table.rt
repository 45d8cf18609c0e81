//! The table of relocations of the hardened object.

ghost use Rattle.std.specs.Prelude.{◌≡◌, ◌↔◌, ◌+◌, ◌<◌, ◌^◌, ◌++◌, ℕ, List, Some, length, map, IfOk, IsTrue, OnOk};
ghost use Rattle.std.specs.Option.{option_to_list};
ghost use Rattle.std.specs.List.{list_all};
ghost use Rattle.std.specs.List.Sorted.{IsStrictlySortedBy};
ghost use Rattle.elf_model.specs.declared.objects.Reloc.{Reloc as RelocParts};
ghost use Rattle.elf_model.specs.declared.objects.MapRow.{MapRow};
ghost use Rattle.elf_model.specs.Objects.{ObjectParts, is_within, is_reloc};
ghost use Rattle.code_ranges.specs.Spans.{place_cmp};
ghost use Rattle.flow_recover.specs.WholeFlows.{IsFlow};
ghost use Rattle.hardened_form.specs.Items.{Item};
ghost use Rattle.hardened_form.specs.Sections.{AreSections};
ghost use Rattle.hardened_form.specs.Symbols.{Lists};
ghost use Rattle.hardened_form.specs.Relocs.{AreRelocs};
ghost use Rattle.branch_layout.specs.Laid.{laid_places};
ghost use Rattle.emit_object.specs.Emitting.{CanEmit};
ghost use Rattle.emit_object.specs.Laid.{HasSizes};
ghost use Rattle.emit_object.specs.MadeRelocs.{IsMadeAt, AreMade};
ghost use Rattle.emit_object.specs.Numbering.{AreNumbers, AreNewSymbols};
ghost use Rattle.emit_object.specs.Readable.{AreReadable};
ghost use Rattle.emit_object.specs.RelocSites.{site_place};
ghost use Rattle.emit_object.specs.SitesInOrder.{AreInOrder};
ghost use Rattle.emit_object.specs.UnitCopies.{all_carriers};

use crate::new_relocs::new_reloc;
use crate::reloc_sites::{Site, numbered, reloc_sites};
use elf_model::{Limit, Object, Reloc};
use flow_recover::Flow;
use seq_core::Layout;
use std::alloc::{AllocError, Global};

/// What stands for a relocation at a site.
fn made_at(
    o: &Object,
    s: &Site,
    targets: &[(u32, u32)],
    first: u32,
    numbers: &[u32],
) -> Option<Reloc>
    requires readable { AreReadable o.now }
    requires few { first + length targets.now < 2 ^ 32 }
    requires rise { IsStrictlySortedBy place_cmp targets.now }
    ensures { (l : Lists) → AreNumbers o.now l targets.now first numbers.now → (q : RelocParts) → (result ≡ Some q) ↔ IsMadeAt o.now l s.now q }
{
    match numbered(o, Some(s.number)) {
        None => None,
        Some((_, r)) => new_reloc(o, &r, s.kind, s.at, targets, first, numbers),
    }
}

/// Adds a relocation, if there is one.
fn push_reloc(list: &mut Vec<Reloc>, r: Option<Reloc>) -> Result<(), AllocError>
    ensures { OnOk result (list.new.items ≡ list.old.items ++ option_to_list r) }
{
    match r {
        Some(q) => {
            list.push(q)?;
            Ok(())
        }
        None => Ok(()),
    }
}

/// What stands for relocations at sites that rise.
fn made_relocs(
    alloc: Global,
    o: &Object,
    sites: &[Site],
    targets: &[(u32, u32)],
    first: u32,
    numbers: &[u32],
) -> Result<Vec<Reloc>, AllocError>
    requires readable { AreReadable o.now }
    requires few { first + length targets.now < 2 ^ 32 }
    requires rise { IsStrictlySortedBy place_cmp targets.now }
    requires order { AreInOrder o.now sites.now }
    ensures { IfOk result (λ list. (l : Lists) → AreNumbers o.now l targets.now first numbers.now → AreMade o.now l sites.now list.items) }
{
    let mut list = Vec::new(alloc);
    for s in sites {
        push_reloc(&mut list, made_at(o, s, targets, first, numbers))?;
    }
    Ok(list)
}

/// The relocations of the hardened object, by section and offset: those of data, one on each copy of a step that carries
/// that of its point, and those of words of code.
pub(crate) fn reloc_table(
    alloc: Global,
    o: &Object,
    f: &Flow,
    l: &Layout,
    targets: &[(u32, u32)],
    first: u32,
    numbers: &[u32],
) -> Result<Vec<Reloc>, AllocError>
    requires within { IsTrue (is_within o.now Limit.ANY) }
    requires flow { IsFlow o.now f.now }
    requires can { CanEmit o.now f.now l.now }
    requires few { first + length targets.now < 2 ^ 32 }
    requires rise { IsStrictlySortedBy place_cmp targets.now }
    ensures exact { IfOk result (λ list. (h : ObjectParts) (lists : Lists) → AreNumbers o.now lists targets.now first numbers.now → h.relocs ≡ list.items → AreRelocs o.now h f.now (laid_places l.now) (all_carriers l.now) lists) }
    ensures sound { IfOk result (λ list. (h : ObjectParts) (items : List Item) (rows : List MapRow) → HasSizes o.now h l.now.sizes → AreSections o.now h rows → AreNewSymbols o.now h f.now l.now items h.symbols targets.now first numbers.now → IsTrue (list_all (is_reloc h.sections h.symbols) list.items)) }
{
    o.sound();
    let sites = reloc_sites(alloc, o, f, l)?;
    let list = made_relocs(alloc, o, &sites, targets, first, numbers)?;
    Ok(list)
}

//! The hardened object.

ghost use Rattle.std.specs.Prelude.{◌≡◌, IfOk, IsTrue};
ghost use Rattle.elf_model.specs.Objects.{is_within};
ghost use Rattle.flow_recover.specs.WholeFlows.{IsFlow};
ghost use Rattle.hardened_form.specs.HardenedForms.{IsHardenedForm};
ghost use Rattle.branch_layout.specs.Laid.{laid_places};
ghost use Rattle.emit_object.specs.Emitting.{CanEmit};
ghost use Rattle.emit_object.specs.UnitCopies.{all_carriers, HaveCodes};

use crate::code_bytes::code_bytes;
use crate::new_sections::new_sections;
use crate::new_symbols::{NewSymbols, new_symbols};
use crate::reloc_table::reloc_table;
use crate::rows::rows;
use elf_model::{Limit, Object, object};
use flow_recover::Flow;
use seq_core::Layout;
use std::alloc::{AllocError, Global};

/// The hardened object of a layout: what a linker takes in place of the object.
pub fn emit(alloc: Global, o: &Object, f: &Flow, l: &Layout) -> Result<Object, AllocError>
    requires within { IsTrue (is_within o.now Limit.INPUT) }
    requires flow { IsFlow o.now f.now }
    requires can { CanEmit o.now f.now l.now }
    ensures form { IfOk result (λ h. IsHardenedForm o.now h f.now (laid_places l.now) (all_carriers l.now)) }
    ensures codes { IfOk result (λ h. HaveCodes h l.now) }
{
    o.sound();
    let rows = rows(alloc, o, f, l)?;
    let code = code_bytes(alloc, o, f, l)?;
    let sections = new_sections(alloc, o, l, code, &rows)?;
    let NewSymbols {
        list,
        targets,
        first_target,
        numbers,
    } = new_symbols(alloc, o, f, l)?;
    let relocs = reloc_table(alloc, o, f, l, &targets, first_target, &numbers)?;
    match object(sections, list, relocs, o.flags()) {
        Some(h) => Ok(h),
        None => unreachable!(),
    }
}

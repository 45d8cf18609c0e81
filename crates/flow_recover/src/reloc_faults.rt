//! Relocations that stand in the way of a flow.

ghost use Rattle.std.specs.Prelude.{◌≡◌, ◌↔◌, ℕ, Some, slice_get, OnOk, IsTrue};
ghost use Rattle.elf_model.specs.Objects.{is_within};
ghost use Rattle.flow_recover.specs.RelocFaults.{MakesArmAddress, IsRelocSpot, IsRelocFault};
ghost use Rattle.flow_recover.specs.Gains.{Gains};
ghost use Rattle.flow_recover.specs.Charts.{IsChart};

use crate::charts::Chart;
use crate::flow_faults::push_if;
use crate::references::{is_right, reference_of};
use elf_model::{Limit, Object, Refusal, Reloc, Spot};
use std::alloc::AllocError;

/// Whether a relocation makes an address of code without bit 0.
fn makes_arm_address(o: &Object, chart: &Chart, r: &Reloc) -> bool
    requires within { IsTrue (is_within o.now Limit.ANY) }
    requires chart { IsChart o.now chart.now }
    requires there { (k : ℕ) × (slice_get o.now.relocs k ≡ Some r.now) }
    ensures { IsTrue result ↔ MakesArmAddress o.now r.now }
{
    match reference_of(o, chart, r) {
        None => false,
        Some(a) => a.value % 2 == 0,
    }
}

/// Adds a relocation, if it is not right or makes an address of code without bit 0.
fn push_reloc(spots: &mut Vec<Spot>, o: &Object, chart: &Chart, r: &Reloc) -> Result<(), AllocError>
    requires within { IsTrue (is_within o.now Limit.ANY) }
    requires chart { IsChart o.now chart.now }
    requires there { (k : ℕ) × (slice_get o.now.relocs k ≡ Some r.now) }
    ensures { OnOk result (Gains (IsRelocSpot o.now r.now) spots.old.items spots.new.items) }
{
    let (j, x) = (r.section, r.offset);
    push_if(spots, !is_right(o, chart, r), Refusal::RelocKind, j, x)?;
    push_if(
        spots,
        makes_arm_address(o, chart, r),
        Refusal::IntoMiddle,
        j,
        x,
    )
}

/// Adds the relocations that are not right, and those that make an address of code without bit 0.
pub(crate) fn push_relocs(
    spots: &mut Vec<Spot>,
    o: &Object,
    chart: &Chart,
) -> Result<(), AllocError>
    requires within { IsTrue (is_within o.now Limit.ANY) }
    requires chart { IsChart o.now chart.now }
    ensures { OnOk result (Gains (IsRelocFault o.now) spots.old.items spots.new.items) }
{
    o.sound();
    for r in o.relocs() {
        push_reloc(spots, o, chart, r)?;
    }
    Ok(())
}

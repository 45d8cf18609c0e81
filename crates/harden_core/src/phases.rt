//! The phases of hardening, each with what it makes and what it refuses.

ghost use Rattle.std.specs.Prelude.{◌≡◌, ◌≤◌, ℕ, IfOk, IfErr, IsTrue};
ghost use Rattle.elf_model.specs.Objects.{is_object, is_within};
ghost use Rattle.flow_recover.specs.WholeFlows.{IsFlow};
ghost use Rattle.liveness.specs.declared.boundary.Boundary.{Boundary as BoundaryParts};
ghost use Rattle.liveness.specs.Faults.{AreLive};
ghost use Rattle.branch_layout.specs.Laid.{laid_places};
ghost use Rattle.branch_layout.specs.Layouts.{IsLayout};
ghost use Rattle.hardened_form.specs.HardenedForms.{IsHardenedForm};
ghost use Rattle.emit_object.specs.Emitting.{units_of as units_in, CanEmit};
ghost use Rattle.emit_object.specs.UnitCopies.{all_carriers, HaveCodes};
ghost use Rattle.point_units.specs.Units.{AreUnits};
ghost use Rattle.harden_core.specs.Denials.{IsHardenDenial, IsUnrefused};

use branch_layout::lay;
use elf_model::{Deny, Limit, Object};
use emit_object::emit;
use flow_recover::{Flow, recover};
use liveness::{Boundary, Live, live, recovered_flows_name_points};
use point_units::units_of;
use seq_core::{Layout, Unit};
use std::alloc::{AllocError, Global};
use unit_layouts::{layouts_can_be_emitted, units_can_be_laid};

/// The flow of the object.
pub(crate) fn flow_of(alloc: Global, o: &Object) -> Result<Flow, Deny>
    requires { IsTrue (is_within o.now Limit.INPUT) }
    ensures flow { IfOk result (λ f. IsFlow o.now f) }
    ensures refused { (b : BoundaryParts) (copies : ℕ) → IfErr result (λ why. IsHardenDenial o.now b copies why) }
{
    recover(alloc, o)
}

/// What is live at the points of the flow.
pub(crate) fn sets_of(alloc: Global, o: &Object, f: &Flow, b: &Boundary) -> Result<Live, Deny>
    requires within { IsTrue (is_within o.now Limit.INPUT) }
    requires flow { IsFlow o.now f.now }
    ensures live { IfOk result (λ l. AreLive f.now b.now l) }
    ensures refused { (copies : ℕ) → IfErr result (λ why. IsHardenDenial o.now b.now copies why) }
{
    recovered_flows_name_points();
    live(alloc, f, b)
}

/// The units of the points.
pub(crate) fn units_by(
    alloc: Global,
    o: &Object,
    f: &Flow,
    b: &Boundary,
    l: &Live,
    copies: u8,
) -> Result<Vec<Unit>, Deny>
    requires within { IsTrue (is_within o.now Limit.INPUT) }
    requires flow { IsFlow o.now f.now }
    requires live { AreLive f.now b.now l.now }
    requires least { 2 ≤ copies }
    requires most { copies ≤ 4 }
    ensures units { IfOk result (λ units. AreUnits o.now f.now b.now copies f.now.points units.items) }
    ensures refused { IfErr result (λ why. IsHardenDenial o.now b.now copies why) }
{
    units_of(alloc, o, f, b, l, copies)
}

/// The layout of the units.
pub(crate) fn layout_of(
    alloc: Global,
    o: &Object,
    f: &Flow,
    b: &Boundary,
    units: &[Unit],
    copies: u8,
) -> Result<Layout, Deny>
    requires within { IsTrue (is_within o.now Limit.INPUT) }
    requires flow { IsFlow o.now f.now }
    requires live { IsUnrefused f.now b.now }
    requires least { 2 ≤ copies }
    requires most { copies ≤ 4 }
    requires units { AreUnits o.now f.now b.now copies f.now.points units.now }
    ensures layout { IfOk result (λ l. IsLayout units.now f.now.words l) }
    ensures refused { IfErr result (λ why. IsHardenDenial o.now b.now copies why) }
{
    units_can_be_laid();
    lay(alloc, units, f.words())
}

/// The object of the layout.
pub(crate) fn object_of(
    alloc: Global,
    o: &Object,
    f: &Flow,
    b: &Boundary,
    units: &[Unit],
    l: &Layout,
    copies: u8,
) -> Result<Object, AllocError>
    requires within { IsTrue (is_within o.now Limit.INPUT) }
    requires flow { IsFlow o.now f.now }
    requires least { 2 ≤ copies }
    requires most { copies ≤ 4 }
    requires units { AreUnits o.now f.now b.now copies f.now.points units.now }
    requires layout { IsLayout units.now f.now.words l.now }
    ensures same { IfOk result (λ _. units_in l.now ≡ units.now) }
    ensures can { IfOk result (λ _. CanEmit o.now f.now l.now) }
    ensures form { IfOk result (λ h. IsHardenedForm o.now h f.now (laid_places l.now) (all_carriers l.now)) }
    ensures codes { IfOk result (λ h. HaveCodes h l.now) }
    ensures sound { IfOk result (λ h. IsTrue (is_object h)) }
{
    o.sound();
    layouts_can_be_emitted();
    let h = emit(alloc, o, f, l)?;
    h.sound();
    Ok(h)
}

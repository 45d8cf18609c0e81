//! The units of a flow's points.

ghost use Rattle.std.specs.Prelude.{◌≡◌, ◌≤◌, ℕ, List, All, IfOk, IfErr, IsTrue, None, Some, length, slice_get};
ghost use Rattle.elf_model.specs.Objects.{is_within};
ghost use Rattle.thumb_instr.specs.Operands.{has};
ghost use Rattle.flow_recover.specs.Flows.{FlowParts};
ghost use Rattle.flow_recover.specs.Points.{PointsRise};
ghost use Rattle.flow_recover.specs.WholeFlows.{IsFlow};
ghost use Rattle.liveness.specs.declared.boundary.Boundary.{Boundary as BoundarySets};
ghost use Rattle.liveness.specs.Faults.{AreLive};
ghost use Rattle.liveness.specs.Paths.{NamesPoints};
ghost use Rattle.it_expand.specs.Expanded.{expanded};
ghost use Rattle.emit_object.specs.Readable.{AreReadable};
ghost use Rattle.seq_core.specs.declared.classes.Class.{Class};
ghost use Rattle.seq_core.specs.Classes.{IsOf};
ghost use Rattle.point_units.specs.Scratch.{IsLive, IsScratchDenial, SufficeAll};
ghost use Rattle.point_units.specs.Spots.{lack};
ghost use Rattle.point_units.specs.Units.{AreUnits, CanReplace, IsSequenceOf, IsUnitOf, never_returns};

use crate::building::sequence_of;
use crate::lacks::lacking_spots;
use crate::left::left_instr;
use crate::scratch::scratch_of;
use crate::targets::target_of;
use code_ranges::first_of;
use elf_model::{Deny, Limit, Object};
use flow_recover::{Exit, Flow, Point, points_stand_apart};
use it_expand::{CondInstr, expand};
use liveness::{Boundary, Live, recovered_flows_name_points};
use seq_core::{Seq, Unit, class_of, full_codes_are_rows, need_of};
use std::alloc::{AllocError, Global};
use thumb_instr::RegSet;

/// Whether it is a call behind which there is nothing.
fn never_returns(x: &Point) -> bool
    ensures { result ≡ never_returns x.now }
{
    matches!(x.exit, Exit::Call) && x.next.is_none()
}

/// The sequence of a point's instruction, by the first of the registers that are not live behind it.
fn sequence_at(
    alloc: Global,
    o: &Object,
    x: &Point,
    c: &CondInstr,
    live: RegSet,
    copies: u8,
) -> Result<Seq, AllocError>
    requires readable { AreReadable o.now }
    requires body { c.now ≡ expanded x.now }
    requires can { CanReplace x.now }
    requires enough { (k : Class) → IsOf k x.now.instr → lack k (has live.0) x.now.instr ≡ None }
    requires least { 2 ≤ copies }
    requires most { copies ≤ 4 }
    ensures { IfOk result (λ s. (scratch : List ℕ) × IsSequenceOf o.now (has live.0) copies x.now scratch s) }
{
    let Some(i) = c.body else {
        return Ok(Seq::new());
    };
    let Some(class) = class_of(&i) else {
        return Ok(Seq::new());
    };
    let free = scratch_of(alloc, &i, live)?;
    let need = need_of(class, &i);
    let scratch = &free[..need.registers as usize];
    let left = left_instr(o, x);
    full_codes_are_rows();
    Ok(sequence_of(&left, class, scratch, copies, never_returns(x), c.guard))
}

/// The unit of a point.
fn unit_at(
    alloc: Global,
    o: &Object,
    f: &Flow,
    x: &Point,
    c: &CondInstr,
    live: RegSet,
    copies: u8,
) -> Result<Unit, AllocError>
    requires readable { AreReadable o.now }
    requires rise { PointsRise f.now }
    requires body { c.now ≡ expanded x.now }
    requires can { CanReplace x.now }
    requires enough { (k : Class) → IsOf k x.now.instr → lack k (has live.0) x.now.instr ≡ None }
    requires least { 2 ≤ copies }
    requires most { copies ≤ 4 }
    ensures { (b : BoundarySets) → IsLive f.now b x.now (has live.0) → IfOk result (λ u. IsUnitOf o.now f.now b copies x.now u) }
{
    Ok(Unit {
        section: x.section,
        old: x.offset,
        seq: sequence_at(alloc, o, x, c, live, copies)?,
        target: target_of(f, x),
        word: x.word,
        reloc: x.reloc,
    })
}

/// One unit for each point.
fn all_units(
    alloc: Global,
    o: &Object,
    f: &Flow,
    b: &Boundary,
    l: &Live,
    copies: u8,
) -> Result<Vec<Unit>, AllocError>
    requires readable { AreReadable o.now }
    requires rise { PointsRise f.now }
    requires flow { NamesPoints f.now }
    requires live { AreLive f.now b.now l.now }
    requires can { All CanReplace f.now.points }
    requires enough { SufficeAll f.now b.now }
    requires least { 2 ≤ copies }
    requires most { copies ≤ 4 }
    ensures { IfOk result (λ units. AreUnits o.now f.now b.now copies f.now.points units.items) }
{
    let bodies = expand(alloc, f)?;
    let mut units = Vec::new(alloc);
    for (p, x) in f.points().iter().enumerate() {
        let live = l.after(f, b, p as u32);
        units.push(unit_at(alloc, o, f, x, &bodies[p], live, copies)?)?;
    }
    Ok(units)
}

/// The units of a flow's points, in their order: each has the sequence of its point's instruction, by the first
/// registers that meet the scratch rule, each step `copies` times, under a guard where the point has a condition.
///
/// # Errors
///
/// `NoScratch`, at the first point by section and offset whose sequence needs more registers than there are, or
/// flags of which one is live. The file is 0.
pub fn units_of(
    alloc: Global,
    o: &Object,
    f: &Flow,
    b: &Boundary,
    l: &Live,
    copies: u8,
) -> Result<Vec<Unit>, Deny>
    requires within { IsTrue (is_within o.now Limit.INPUT) }
    requires flow { IsFlow o.now f.now }
    requires live { AreLive f.now b.now l.now }
    requires least { 2 ≤ copies }
    requires most { copies ≤ 4 }
    ensures units { IfOk result (λ units. AreUnits o.now f.now b.now copies f.now.points units.items) }
    ensures enough { IfOk result (λ _. SufficeAll f.now b.now) }
    ensures refused { IfErr result (λ why. IsScratchDenial f.now b.now why) }
{
    o.sound();
    recovered_flows_name_points();
    let spots = lacking_spots(alloc, f, b, l)?;
    match first_of(&spots) {
        Some(spot) => Err(Deny::Refused(spot)),
        None => {
            points_stand_apart();
            full_codes_are_rows();
            Ok(all_units(alloc, o, f, b, l, copies)?)
        }
    }
}

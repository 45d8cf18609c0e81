//! What stands in the way of a flow.

ghost use Rattle.std.specs.Prelude.{◌≡◌, ◌↔◌, ℕ, true, [], IfOk, OnOk, IsTrue};
ghost use Rattle.elf_model.specs.Objects.{is_within};
ghost use Rattle.code_ranges.specs.Spots.{spot_of as spot_at};
ghost use Rattle.reloc_places.specs.Starts.{HasStart};
ghost use Rattle.flow_recover.specs.FlowFaults.{IsInBlock};
ghost use Rattle.flow_recover.specs.Gains.{Gains, has_place, IsFrom};
ghost use Rattle.flow_recover.specs.Charts.{IsChart, AreFaults};
ghost use Rattle.flow_recover.specs.Visits.{IsVisit, AreVisits};
ghost use Rattle.flow_recover.specs.Claims.{AreClaims};
ghost use Rattle.flow_recover.specs.NodeFaults.{is_adr as is_adr_of, is_fixed as is_fixed_aim, literal_of as literal_of_instr, IsAbsolute, LacksWord, RunsOut, IsReachedBad, IsVisitSpot, IsClaimSpot, IsWrongClaim};

use crate::aims::{Aim, has_offset};
use crate::blocks::{block_places, is_cut};
use crate::charts::Chart;
use crate::edges::may_fall;
use crate::literals::literal_place;
use crate::named::Claim;
use crate::reloc_faults::push_relocs;
use crate::visits::Visit;
use code_ranges::spot_of;
use elf_model::{Limit, Object, Refusal, Spot};
use std::alloc::{AllocError, Global};
use std::collections::BTreeSet;
use thumb_instr::{Instr, Literal};

/// Whether an instruction starts at an offset of a section.
fn has_start(o: &Object, chart: &Chart, section: u32, offset: u32) -> bool
    requires { IsChart o.now chart.now }
    ensures { (result ≡ true) ↔ HasStart o.now section offset }
{
    chart.starts.contains_key(&(section, offset))
}

/// ADR, which makes an address of pc.
fn is_adr(i: &Instr) -> bool
    ensures { result ≡ is_adr_of i.now }
{
    match i {
        Instr::Adr(_) => true,
        _ => false,
    }
}

/// Whether an aim is an absolute address.
fn is_fixed(a: Aim) -> bool
    ensures { result ≡ is_fixed_aim a }
{
    match a {
        Aim::Near(_) => false,
        Aim::Shared(_) => false,
        Aim::Fixed => true,
        Aim::Far => false,
    }
}

/// Whether an instruction leads to an absolute address.
fn is_absolute(o: &Object, v: &Visit) -> bool
    requires { IsVisit o.now v.now }
    ensures { (result ≡ true) ↔ IsAbsolute o.now v.now.node v.now.instr }
{
    if has_offset(&v.instr) {
        is_fixed(v.aim)
    } else {
        false
    }
}

/// The literal load that an instruction is.
fn literal_of(i: &Instr) -> Option<Literal>
    ensures { result ≡ literal_of_instr i.now }
{
    match i {
        Instr::Literal(i) => Some(*i),
        _ => None,
    }
}

/// Whether an instruction loads what is no word of data.
fn lacks_word(o: &Object, chart: &Chart, v: &Visit) -> bool
    requires chart { IsChart o.now chart.now }
    requires visit { IsVisit o.now v.now }
    ensures { (result ≡ true) ↔ LacksWord o.now v.now.node v.now.instr }
{
    match literal_of(&v.instr) {
        None => false,
        Some(l) => match literal_place(v.node.offset, &l) {
            None => true,
            Some(w) => !chart.words.contains(&(v.node.section, w)),
        },
    }
}

/// Whether control goes on from an instruction to where no code is.
fn runs_out(o: &Object, chart: &Chart, v: &Visit) -> bool
    requires chart { IsChart o.now chart.now }
    requires visit { IsVisit o.now v.now }
    ensures { (result ≡ true) ↔ RunsOut o.now v.now.node v.now.instr }
{
    if may_fall(v.node, &v.instr) {
        !has_start(o, chart, v.node.section, v.behind)
    } else {
        false
    }
}

/// Adds a spot, if a test holds.
pub(crate) fn push_if(
    spots: &mut Vec<Spot>,
    test: bool,
    refusal: Refusal,
    section: u32,
    offset: u32,
) -> Result<(), AllocError>
    ensures { OnOk result (Gains (λ s. (test ≡ true) × (s ≡ spot_at refusal section offset)) spots.old.items spots.new.items) }
{
    if test {
        spots.push(spot_of(refusal, section, offset))?;
    }
    Ok(())
}

/// Adds what an instruction is at fault for.
fn push_visit(spots: &mut Vec<Spot>, o: &Object, chart: &Chart, v: &Visit) -> Result<(), AllocError>
    requires within { IsTrue (is_within o.now Limit.ANY) }
    requires chart { IsChart o.now chart.now }
    requires visit { IsVisit o.now v.now }
    ensures { OnOk result (Gains (IsVisitSpot o.now v.now) spots.old.items spots.new.items) }
{
    let (j, x) = (v.node.section, v.node.offset);
    push_if(spots, is_adr(&v.instr), Refusal::PcOperand, j, x)?;
    push_if(spots, is_absolute(o, v), Refusal::IntoMiddle, j, x)?;
    push_if(spots, lacks_word(o, chart, v), Refusal::IntoMiddle, j, x)?;
    push_if(spots, runs_out(o, chart, v), Refusal::FallsOff, j, x)?;
    push_if(spots, is_cut(o, chart, v), Refusal::FallsOff, j, x)
}

/// Adds what each instruction is at fault for.
fn push_visits(
    spots: &mut Vec<Spot>,
    o: &Object,
    chart: &Chart,
    visits: &[Visit],
) -> Result<(), AllocError>
    requires within { IsTrue (is_within o.now Limit.ANY) }
    requires chart { IsChart o.now chart.now }
    requires visits { AreVisits o.now visits.now }
    ensures { OnOk result (Gains (IsFrom (IsVisitSpot o.now) visits.now) spots.old.items spots.new.items) }
{
    for v in visits {
        push_visit(spots, o, chart, v)?;
    }
    Ok(())
}

/// Whether control is sent to where no instruction starts, or into an IT block.
fn is_wrong(o: &Object, chart: &Chart, places: &BTreeSet<(u32, u32)>, c: Claim) -> bool
    requires chart { IsChart o.now chart.now }
    requires places { (j x : ℕ) → (has_place places.now j x ≡ true) ↔ IsInBlock o.now j x }
    ensures { (result ≡ true) ↔ IsWrongClaim o.now c }
{
    !has_start(o, chart, c.section, c.offset) || places.contains(&(c.section, c.offset))
}

/// Adds the claims on places where control may not come in, at the place that makes each.
fn push_claims(
    spots: &mut Vec<Spot>,
    o: &Object,
    chart: &Chart,
    places: &BTreeSet<(u32, u32)>,
    claims: &[Claim],
) -> Result<(), AllocError>
    requires chart { IsChart o.now chart.now }
    requires places { (j x : ℕ) → (has_place places.now j x ≡ true) ↔ IsInBlock o.now j x }
    ensures { OnOk result (Gains (IsFrom (IsClaimSpot o.now) claims.now) spots.old.items spots.new.items) }
{
    for c in claims {
        let wrong = is_wrong(o, chart, places, *c);
        push_if(
            spots,
            wrong,
            Refusal::IntoMiddle,
            c.from_section,
            c.from_offset,
        )?;
    }
    Ok(())
}

/// All faults of an object's flow, in no order: those of halfwords that are no instruction, and behind them
/// all others.
pub(crate) fn flow_spots(
    alloc: Global,
    o: &Object,
    chart: &Chart,
    claims: &[Claim],
    visits: &[Visit],
    bad: Vec<Spot>,
) -> Result<Vec<Spot>, AllocError>
    requires within { IsTrue (is_within o.now Limit.ANY) }
    requires chart { IsChart o.now chart.now }
    requires claims { AreClaims o.now claims.now }
    requires visits { AreVisits o.now visits.now }
    requires bad { Gains (IsReachedBad o.now) [] bad.items }
    ensures { IfOk result (λ spots. AreFaults o.now spots.items) }
{
    let places = block_places(alloc, o, chart, visits)?;
    let mut spots = bad;
    push_visits(&mut spots, o, chart, visits)?;
    push_claims(&mut spots, o, chart, &places, claims)?;
    push_relocs(&mut spots, o, chart)?;
    Ok(spots)
}

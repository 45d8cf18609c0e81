//! All places that control is sent to.

ghost use Rattle.std.specs.Prelude.{◌≡◌, ◌↔◌, ℕ, true, IfOk, OnOk};
ghost use Rattle.std.specs.List.{filter_map};
ghost use Rattle.std.specs.BTreeSet.{contains};
ghost use Rattle.code_ranges.specs.Spans.{place_cmp};
ghost use Rattle.flow_recover.specs.WholeFlows.{IsEntry};
ghost use Rattle.flow_recover.specs.Charts.{AreNamed};
ghost use Rattle.flow_recover.specs.Gains.{PlacesGain};
ghost use Rattle.flow_recover.specs.Visits.{AreVisits};
ghost use Rattle.flow_recover.specs.Claims.{enters_by as enters_by_aim, claim_at, AreClaims, EntersAt};

use crate::aims::{Aim, has_offset, is_branch, offset_in};
use crate::named::Claim;
use crate::visits::Visit;
use elf_model::Object;
use std::alloc::{AllocError, Global};
use std::collections::BTreeSet;

/// Whether control enters where a branch, or else a call, leads.
fn enters_by(branch: bool, aim: Aim) -> bool
    ensures { result ≡ enters_by_aim branch aim }
{
    match aim {
        Aim::Near(_) => !branch,
        Aim::Shared(_) => true,
        Aim::Fixed => false,
        Aim::Far => false,
    }
}

/// Where an instruction leads, if to an offset of its own section.
#[tactic(auto, unfolding(crate::specs::Claims::claim_at))]
fn claim_of(v: &Visit) -> Option<Claim>
    ensures { result ≡ claim_at v.now }
{
    if !has_offset(&v.instr) {
        return None;
    }
    match offset_in(v.aim) {
        None => None,
        Some(x) => Some(Claim {
            section: v.node.section,
            offset: x,
            from_section: v.node.section,
            from_offset: v.node.offset,
            entry: enters_by(is_branch(&v.instr), v.aim),
        }),
    }
}

/// Where instructions lead in their own section.
fn led_places(alloc: Global, visits: &[Visit]) -> Result<Vec<Claim>, AllocError>
    ensures { IfOk result (λ claims. claims.items ≡ filter_map claim_at visits.now) }
{
    visits.iter().filter_map(|v| claim_of(v)).collect(alloc)
}

/// What the object names, and where the instructions that control reaches lead.
pub(crate) fn all_claims(
    alloc: Global,
    o: &Object,
    named: &[Claim],
    visits: &[Visit],
) -> Result<Vec<Claim>, AllocError>
    requires named { AreNamed o.now named.now }
    requires visits { AreVisits o.now visits.now }
    ensures { IfOk result (λ claims. AreClaims o.now claims.items) }
{
    let mut claims = Vec::from_slice(alloc, named)?;
    let led = led_places(alloc, visits)?;
    claims.extend_from_slice(&led)?;
    Ok(claims)
}

/// Adds the place of a claim, if control enters there.
fn note_entry(places: &mut BTreeSet<(u32, u32)>, c: &Claim) -> Result<(), AllocError>
    ensures { OnOk result (PlacesGain (λ j x. EntersAt c.now (j, x)) places.old places.new) }
{
    if c.entry {
        places.insert((c.section, c.offset))?;
    }
    Ok(())
}

/// Where control enters: what the object names, and where calls and transfers lead in their own section.
pub(crate) fn entry_places(
    alloc: Global,
    o: &Object,
    claims: &[Claim],
) -> Result<BTreeSet<(u32, u32)>, AllocError>
    requires { AreClaims o.now claims.now }
    ensures { IfOk result (λ places. (j x : ℕ) → (contains place_cmp places (j, x) ≡ true) ↔ IsEntry o.now j x) }
{
    let mut places = BTreeSet::new(alloc);
    for c in claims {
        note_entry(&mut places, c)?;
    }
    Ok(places)
}

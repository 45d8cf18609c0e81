//! Where the scratch rule gives too few registers.

ghost use Rattle.std.specs.Prelude.{◌≡◌, ◌<◌, ℕ, IfOk, OnOk, length, slice_get};
ghost use Rattle.thumb_instr.specs.Operands.{has};
ghost use Rattle.liveness.specs.Faults.{AreLive};
ghost use Rattle.liveness.specs.Paths.{NamesPoints};
ghost use Rattle.point_units.specs.Spots.{lack, AreSpots, IsLackAt};

use crate::scratch::{has_live_flag, scratch_of};
use code_ranges::spot_of;
use elf_model::{Refusal, Spot};
use flow_recover::{Flow, Point};
use liveness::{Boundary, Live};
use seq_core::{Class, class_of, need_of};
use std::alloc::{AllocError, Global};
use thumb_instr::{Instr, RegSet};

/// What the sequence of an instruction of the class lacks, if anything.
fn lack(alloc: Global, class: Class, i: &Instr, live: RegSet) -> Result<Option<Refusal>, AllocError>
    ensures { IfOk result (λ r. r ≡ lack class (has live.0) i.now) }
{
    let need = need_of(class, i);
    let have = scratch_of(alloc, i, live)?.len();
    let flags = need.flags && has_live_flag(live);
    if have < need.registers as usize || flags {
        return Ok(Some(Refusal::NoScratch {
            need: need.registers,
            have: have as u8,
            flags,
        }));
    }
    Ok(None)
}

/// The place of what a point lacks.
fn lacking_spot(alloc: Global, x: &Point, live: RegSet) -> Result<Option<Spot>, AllocError>
    ensures { IfOk result (λ s. IsLackAt x.now (has live.0) s) }
{
    let Some(class) = class_of(&x.instr) else {
        return Ok(None);
    };
    match lack(alloc, class, &x.instr, live)? {
        None => Ok(None),
        Some(refusal) => Ok(Some(spot_of(refusal, x.section, x.offset))),
    }
}

/// The places of all that is lacking, in the order of points.
pub(crate) fn lacking_spots(
    alloc: Global,
    f: &Flow,
    b: &Boundary,
    l: &Live,
) -> Result<Vec<Spot>, AllocError>
    requires flow { NamesPoints f.now }
    requires live { AreLive f.now b.now l.now }
    ensures { IfOk result (λ spots. AreSpots f.now b.now f.now.points spots.items) }
{
    let mut spots = Vec::new(alloc);
    for (p, x) in f.points().iter().enumerate() {
        if let Some(spot) = lacking_spot(alloc, x, l.after(f, b, p as u32))? {
            spots.push(spot)?;
        }
    }
    Ok(spots)
}

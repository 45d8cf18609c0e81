//! From an object to its hardened form.

ghost use Rattle.std.specs.Prelude.{◌≡◌, ◌≤◌, IfOk, IfErr, IsTrue};
ghost use Rattle.elf_model.specs.Objects.{is_object, is_within};
ghost use Rattle.pair_parts.specs.Made.{IsMade};
ghost use Rattle.sim_relation.specs.Accepted.{Accepted, boundaries};
ghost use Rattle.sim_relation.specs.Pairs.{Paired, everywhere};
ghost use Rattle.harden_core.specs.Denials.{IsHardenDenial};
ghost use Rattle.harden_core.specs.Hardening.{IsHardening};

use crate::counting::{emitted, factor_of, function_count};
use crate::phases::{flow_of, layout_of, object_of, sets_of, units_by};
use bitflags::Flags;
use elf_model::{Deny, Limit, Object};
use flow_recover::Flow;
use liveness::Boundary;
use pair_parts::{made_are_paired, made_are_within};
use seq_core::Layout;
use sim_relation::Setting;
use std::alloc::Global;
use thumb_instr::RegSet;

/// A hardened object; the instructions of its longest unit, 1 at least; the instructions that control reaches before,
/// and those of all units; and the functions of the object that was hardened.
#[derive(Drop)]
pub struct Hardened {
    pub object: Object,
    pub factor: u32,
    pub before: u32,
    pub after: u32,
    pub functions: u32,
}

/// What counts as used where control leaves: r0 to r11 and sp; at a transfer lr too; at a return the results, r4 to r11
/// and sp (AAPCS, 6.1.1).
fn boundary_of(s: &Setting) -> Boundary
    requires { s.now.results ≤ 4 }
    ensures { result ≡ boundaries s.now.results }
{
    let results = (1u32 << s.results) - 1;
    Boundary {
        call: RegSet::from_bits_retain(0x2FFF),
        transfer: RegSet::from_bits_retain(0x6FFF),
        ret: RegSet::from_bits_retain(0x2FF0 + results),
    }
}

/// What is told of a hardened object beside it.
fn finished(o: &Object, f: &Flow, l: &Layout, object: Object, s: &Setting) -> Hardened
    requires within { IsTrue (is_within o.now Limit.INPUT) }
    requires sound { IsTrue (is_object o.now) }
    requires hard { IsTrue (is_object object) }
    requires copies { s.now.copies ≡ 2 }
    requires results { s.now.results ≡ 4 }
    requires accepted { Accepted o.now f.now s.now.results }
    requires made { IsMade o.now object f.now s.now.copies s.now.results l.now }
    ensures hardened { IsHardening o.now s.now.copies s.now.results result }
    ensures paired { Paired o.now result.object result.factor s.now.copies s.now.results everywhere }
    ensures within { IsTrue (is_within result.object Limit.ANY) }
{
    made_are_paired();
    made_are_within();
    Hardened {
        object,
        factor: factor_of(l),
        before: f.points().len() as u32,
        after: emitted(l.units()),
        functions: function_count(o),
    }
}

/// The hardened form of an object: each instruction that control reaches is replaced by a sequence of which any step
/// may be skipped, so long as no two steps in a row are.
///
/// # Errors
///
/// The first that is due of what `recover`, `live`, `units_of` and `lay` refuse, in this order. The file is 0.
pub fn harden(alloc: Global, o: &Object, s: &Setting) -> Result<Hardened, Deny>
    requires within { IsTrue (is_within o.now Limit.INPUT) }
    requires copies { s.now.copies ≡ 2 }
    requires results { s.now.results ≡ 4 }
    ensures hardened { IfOk result (λ out. IsHardening o.now s.now.copies s.now.results out) }
    ensures paired { IfOk result (λ out. Paired o.now out.object out.factor s.now.copies s.now.results everywhere) }
    ensures within { IfOk result (λ out. IsTrue (is_within out.object Limit.ANY)) }
    ensures refused { IfErr result (λ why. IsHardenDenial o.now (boundaries s.now.results) s.now.copies why) }
{
    o.sound();
    let flow = flow_of(alloc, o)?;
    let boundary = boundary_of(s);
    let sets = sets_of(alloc, o, &flow, &boundary)?;
    let units = units_by(alloc, o, &flow, &boundary, &sets, s.copies)?;
    let layout = layout_of(alloc, o, &flow, &boundary, &units, s.copies)?;
    let object = object_of(alloc, o, &flow, &boundary, &units, &layout, s.copies)?;
    Ok(finished(o, &flow, &layout, object, s))
}

//! What an object names as places that control may come to.

ghost use Rattle.std.specs.Prelude.{◌≡◌, ℕ, Some, slice_get, IfOk, OnOk, IsTrue};
ghost use Rattle.elf_model.specs.Objects.{is_within};
ghost use Rattle.flow_recover.specs.Aims.{is_entry as is_entry_symbol};
ghost use Rattle.flow_recover.specs.Gains.{Gains, IsFrom};
ghost use Rattle.flow_recover.specs.NamedClaims.{entry_claim as entry_claim_of, IsEntryClaim, IsAddressClaim, IsBranchClaim, IsRelocClaim};
ghost use Rattle.flow_recover.specs.Charts.{IsChart, AreNamed};

use crate::charts::Chart;
use crate::references::{code_home, far_target_of, reference_of};
use elf_model::numbers::{FUNC, LOCAL};
use elf_model::{Limit, Object, Reloc, Symbol};
use reloc_places::even;
use std::alloc::{AllocError, Global};

/// A place that control is sent to, and the place that sends it there. At an entry, it enters.
#[derive(Clone, Copy)]
pub(crate) struct Claim {
    pub(crate) section: u32,
    pub(crate) offset: u32,
    pub(crate) from_section: u32,
    pub(crate) from_offset: u32,
    pub(crate) entry: bool,
}

/// A function, or a symbol that other objects see.
fn is_entry(s: &Symbol) -> bool
    ensures { result ≡ is_entry_symbol s.now }
{
    s.kind == FUNC || s.bind != LOCAL
}

/// What a symbol names, which is its own place, if it is an entry.
fn entry_claim(o: &Object, s: &Symbol) -> Option<Claim>
    ensures { result ≡ entry_claim_of o.now s.now }
{
    if is_entry(s) {
        match code_home(o, s.home) {
            None => None,
            Some(j) => Some(Claim {
                section: j,
                offset: even(s.value),
                from_section: j,
                from_offset: even(s.value),
                entry: true,
            }),
        }
    } else {
        None
    }
}

/// Adds the place of a symbol, if it is an entry.
fn push_entry(claims: &mut Vec<Claim>, o: &Object, s: &Symbol) -> Result<(), AllocError>
    ensures { OnOk result (Gains (IsEntryClaim o.now s.now) claims.old.items claims.new.items) }
{
    if let Some(claim) = entry_claim(o, s) {
        claims.push(claim)?;
    }
    Ok(())
}

/// Adds the places of entry symbols.
fn push_entries(claims: &mut Vec<Claim>, o: &Object) -> Result<(), AllocError>
    ensures { OnOk result (Gains (IsFrom (IsEntryClaim o.now) o.now.symbols) claims.old.items claims.new.items) }
{
    for s in o.symbols() {
        push_entry(claims, o, s)?;
    }
    Ok(())
}

/// Adds the address of code that a relocation makes.
fn push_address(
    claims: &mut Vec<Claim>,
    o: &Object,
    chart: &Chart,
    r: &Reloc,
) -> Result<(), AllocError>
    requires within { IsTrue (is_within o.now Limit.ANY) }
    requires chart { IsChart o.now chart.now }
    requires there { (k : ℕ) × (slice_get o.now.relocs k ≡ Some r.now) }
    ensures { OnOk result (Gains (IsAddressClaim o.now r.now) claims.old.items claims.new.items) }
{
    if let Some(a) = reference_of(o, chart, r) {
        claims.push(Claim {
            section: a.section,
            offset: even(a.value),
            from_section: r.section,
            from_offset: r.offset,
            entry: true,
        })?;
    }
    Ok(())
}

/// Adds where a branch from another section leads by its relocation.
fn push_branch(
    claims: &mut Vec<Claim>,
    o: &Object,
    chart: &Chart,
    r: &Reloc,
) -> Result<(), AllocError>
    requires within { IsTrue (is_within o.now Limit.ANY) }
    requires chart { IsChart o.now chart.now }
    requires there { (k : ℕ) × (slice_get o.now.relocs k ≡ Some r.now) }
    ensures { OnOk result (Gains (IsBranchClaim o.now r.now) claims.old.items claims.new.items) }
{
    if let Some(t) = far_target_of(o, chart, r) {
        claims.push(Claim {
            section: t.section,
            offset: t.value,
            from_section: r.section,
            from_offset: r.offset,
            entry: true,
        })?;
    }
    Ok(())
}

/// Adds what relocations name: addresses of code, and where branches from another section lead.
fn push_relocs(claims: &mut Vec<Claim>, o: &Object, chart: &Chart) -> Result<(), AllocError>
    requires within { IsTrue (is_within o.now Limit.ANY) }
    requires chart { IsChart o.now chart.now }
    ensures { OnOk result (Gains (IsFrom (IsRelocClaim o.now) o.now.relocs) claims.old.items claims.new.items) }
{
    for r in o.relocs() {
        push_address(claims, o, chart, r)?;
        push_branch(claims, o, chart, r)?;
    }
    Ok(())
}

/// What the object names as places of control: its entry symbols, its addresses of code, and its
/// branches from another section, in no order.
pub(crate) fn named_places(
    alloc: Global,
    o: &Object,
    chart: &Chart,
) -> Result<Vec<Claim>, AllocError>
    requires within { IsTrue (is_within o.now Limit.ANY) }
    requires chart { IsChart o.now chart.now }
    ensures { IfOk result (λ claims. AreNamed o.now claims.items) }
{
    let mut claims = Vec::new(alloc);
    push_entries(&mut claims, o)?;
    push_relocs(&mut claims, o, chart)?;
    Ok(claims)
}

//! Registers that an instruction writes, the base of an access first.

ghost use Rattle.std.specs.Prelude.{◌≡◌, ◌++◌, ℕ, List, [], ◌∷◌, Err, OnOk, IfErr};
ghost use Rattle.std.specs.List.{list_any};
ghost use Rattle.mark_word.specs.Words.{Cell};
ghost use Rattle.thumb_table.specs.Parts.{Memory};
ghost use Rattle.thumb_table.specs.States.{is_askew as is_askew_of, unchanged, upright, write_all};
ghost use Rattle.thumb_table.specs.Effects.{writing};
ghost use Rattle.thumb_table.specs.Views.{base_list, SettlesTo, StoresBy};

use crate::cores::{fall, is_askew};
use crate::{Core, FaultKind};
use mark_word::Word;
use thumb_instr::Reg;

/// Whether the base would make sp no multiple of 4.
pub(crate) fn is_base_askew(n: Reg, base: Option<u32>) -> bool
    ensures { result ≡ list_any is_askew_of (base_list n base) }
{
    match base {
        None => false,
        Some(bits) => is_askew(n, Word::plain(bits)),
    }
}

/// Writes the base.
pub(crate) fn set_base(n: Reg, base: Option<u32>, s: &mut Core)
    ensures { s.new ≡ record s.old { r = write_all (base_list n base) s.old.r } }
{
    match base {
        None => {}
        Some(bits) => s.r[n.number() as usize] = Word::plain(bits),
    }
}

/// Writes the base and then what was loaded, unless sp would be askew.
pub(crate) fn put_load(
    n: Reg,
    base: Option<u32>,
    t: Reg,
    w: Word,
    next: u32,
    s: &mut Core,
) -> Result<(), FaultKind>
    ensures done { OnOk result (SettlesTo (upright (writing (base_list n base ++ ((t, w) ∷ [])))) next s.old s.new) }
    ensures fault { IfErr result (λ kind. (upright (writing (base_list n base ++ ((t, w) ∷ []))) ≡ Err kind) × (s.new ≡ s.old)) }
{
    if is_base_askew(n, base) || is_askew(t, w) {
        return Err(FaultKind::BadStack);
    }
    set_base(n, base, s);
    s.r[t.number() as usize] = w;
    fall(next, s);
    Ok(())
}

/// Writes the base and then the two words that were loaded, unless sp would be askew.
pub(crate) fn put_pair(
    n: Reg,
    base: Option<u32>,
    t: (Reg, Word),
    u: (Reg, Word),
    next: u32,
    s: &mut Core,
) -> Result<(), FaultKind>
    ensures done { OnOk result (SettlesTo (upright (writing (base_list n base ++ (t ∷ u ∷ [])))) next s.old s.new) }
    ensures fault { IfErr result (λ kind. (upright (writing (base_list n base ++ (t ∷ u ∷ []))) ≡ Err kind) × (s.new ≡ s.old)) }
{
    if is_base_askew(n, base) || is_askew(t.0, t.1) || is_askew(u.0, u.1) {
        return Err(FaultKind::BadStack);
    }
    set_base(n, base, s);
    s.r[t.0.number() as usize] = t.1;
    s.r[u.0.number() as usize] = u.1;
    fall(next, s);
    Ok(())
}

/// Writes the base beside a store, unless sp would be askew.
pub(crate) fn put_base(n: Reg, base: Option<u32>, next: u32, s: &mut Core) -> Result<(), FaultKind>
    ensures done { OnOk result (StoresBy (base_list n base) next s.old s.new) }
    ensures fault { IfErr result (λ kind. ((cells : List (ℕ × Cell)) → upright (record unchanged { regs = base_list n base; cells = cells }) ≡ Err kind) × (s.new ≡ s.old)) }
{
    if is_base_askew(n, base) {
        return Err(FaultKind::BadStack);
    }
    set_base(n, base, s);
    fall(next, s);
    Ok(())
}

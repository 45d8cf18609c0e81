//! LDRD and STRD (ARMv7-M ARM, A7.7.50 and A7.7.166).

ghost use Rattle.std.specs.Prelude.{◌≡◌, ◌+◌, ◌<◌, ◌^◌, true, length, OnOk, IfErr, Err};
ghost use Rattle.thumb_instr.specs.declared.instructions.Instr.TheVariants as instr;
ghost use Rattle.thumb_table.specs.Parts.{CodeBytes};
ghost use Rattle.thumb_table.specs.States.{Outcome};
ghost use Rattle.thumb_table.specs.Effects.{access_address, base_write, pair_place, lies_in, on_words};
ghost use Rattle.thumb_table.specs.CoreStates.{alone, core_of};
ghost use Rattle.thumb_table.specs.Views.{base_list, pair_outcome, Ends, Turns, Fails};

use crate::addresses::moved;
use crate::writes::{put_base, put_pair};
use crate::{Core, FaultKind, Memory};
use thumb_instr::{Pair, PairIndex};

/// Whether words lie in memory at a multiple of 4.
pub(crate) fn check_words(m: &Memory, address: u32, bytes: u32) -> Result<(), FaultKind>
    ensures lies { OnOk result (lies_in m.now address bytes ≡ true) }
    ensures done { OnOk result ((outcome : Outcome) → on_words m.now address bytes outcome ≡ outcome) }
    ensures fault { IfErr result (λ kind. (outcome : Outcome) → on_words m.now address bytes outcome ≡ Err kind) }
{
    if !m.holds(address, bytes) {
        return Err(FaultKind::BadAddress);
    }
    if address % 4 != 0 {
        return Err(FaultKind::Unaligned);
    }
    Ok(())
}

/// The address of a pair.
pub(crate) fn access_address(i: &Pair, s: &Core) -> u32
    ensures { result ≡ access_address i.now.n (pair_place i.now.index i.now.up i.now.imm) (alone s.now) }
{
    let n = s.word(i.n).bits();
    match i.index {
        PairIndex::Post => n,
        _ => moved(i.up, u64::from(n), u32::from(i.imm)),
    }
}

/// The new number of the base, if it changes.
fn base_of(i: &Pair, s: &Core) -> Option<u32>
    ensures { base_list i.now.n result ≡ base_write i.now.n (pair_place i.now.index i.now.up i.now.imm) (alone s.now) }
{
    match i.index {
        PairIndex::Offset => None,
        _ => {
            let n = u64::from(s.word(i.n).bits());
            Some(moved(i.up, n, u32::from(i.imm)))
        }
    }
}

/// Transfers two words.
fn transfer(
    i: &Pair,
    address: u32,
    next: u32,
    s: &mut Core,
    m: &mut Memory,
) -> Result<(), FaultKind>
    requires lies { lies_in m.old address 8 ≡ true }
    requires ends { m.old.base + length m.old.cells < 2 ^ 32 }
    ensures done { OnOk result (Ends (pair_outcome i.now address (core_of s.old m.old)) next s.old m.old s.new m.new) }
    ensures fault { IfErr result (λ kind. (pair_outcome i.now address (core_of s.old m.old) ≡ Err kind) × (s.new ≡ s.old) × (m.new ≡ m.old)) }
{
    let base = base_of(i, s);
    let at = u64::from(address);
    if i.load {
        let t = (i.t, m.word_at(at).word);
        let u = (i.u, m.word_at(at + 4).word);
        return put_pair(i.n, base, t, u, next, s);
    }
    let t = s.word(i.t);
    let u = s.word(i.u);
    match put_base(i.n, base, next, s) {
        Ok(()) => {
            m.store_word(address, t);
            m.store_word(address + 4, u);
            Ok(())
        }
        Err(kind) => Err(kind),
    }
}

/// LDRD and STRD.
pub(crate) fn apply_pair(i: &Pair, next: u32, s: &mut Core, m: &mut Memory) -> Result<(), FaultKind>
    requires { m.old.base + length m.old.cells < 2 ^ 32 }
    ensures done { OnOk result ((code : CodeBytes) → Turns code (instr.Pair i.now) next s.old m.old s.new m.new) }
    ensures fault { IfErr result (λ kind. ((code : CodeBytes) → Fails code (instr.Pair i.now) next s.old m.old kind) × (s.new ≡ s.old) × (m.new ≡ m.old)) }
{
    let address = access_address(i, s);
    match check_words(m, address, 8) {
        Ok(()) => transfer(i, address, next, s, m),
        Err(kind) => Err(kind),
    }
}

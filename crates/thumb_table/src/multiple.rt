//! Loads and stores of several words (ARMv7-M ARM, A7.7.41, A7.7.50, A7.7.159 and A7.7.166).

ghost use Rattle.std.specs.Prelude.{◌≡◌, ◌+◌, ◌*◌, ◌<◌, ◌≤◌, ◌^◌, ◌-◌, ◌%◌, true, length, OnOk, IfErr, Err, if◌then◌else◌};
ghost use Rattle.thumb_instr.specs.declared.instructions.Instr.TheVariants as instr;
ghost use Rattle.thumb_table.specs.Parts.{CodeBytes};
ghost use Rattle.thumb_table.specs.States.{write_all};
ghost use Rattle.thumb_table.specs.Effects.{value, word_at, registers, loaded, stored, transfer_size, lowest as lowest_of, lies_in, base_moved};
ghost use Rattle.thumb_table.specs.CoreStates.{alone, core_of};
ghost use Rattle.thumb_table.specs.Views.{base_list, with_cells, list_change, popped as popped_of, list_outcome, Ends, Turns, Fails};

use crate::addresses::moved;
use crate::cores::fall;
use crate::pairs::check_words;
use crate::writes::{is_base_askew, set_base};
use crate::{Core, FaultKind, Memory};
use mark_word::{Joined, Word};
use thumb_instr::{Multi, Reg, RegSet};

/// A register by its number.
pub(crate) fn numbered(k: u8) -> Reg
    requires { k < 15 }
    ensures { result ≡ k }
{
    Reg::new(k).unwrap()
}

/// How many registers of a list there are.
fn count(list: RegSet) -> u32
    ensures value { result ≡ length (registers list.0) }
    ensures range { result ≤ 15 }
{
    let mut count = 0;
    'each: for k in 0..15u8 {
        if list.has(numbered(k)) {
            count += 1;
        }
    }
    count
}

/// The bytes that a list and pc take.
pub(crate) fn transfer_size(i: &Multi) -> u32
    ensures value { result ≡ transfer_size i.now.list.0 i.now.pc }
    ensures range { result ≤ 64 }
{
    4 * (count(i.list) + u32::from(i.pc))
}

/// Loads words by rising register.
pub(crate) fn load_list(list: RegSet, address: u32, s: &mut Core, m: &Memory)
    requires { address + 4 * length (registers list.0) < 2 ^ 32 }
    ensures { s.new ≡ record s.old { r = write_all (loaded m.now address (registers list.0)) s.old.r } }
{
    let mut at = address;
    'each: for k in 0..15u8 {
        if list.has(numbered(k)) {
            s.r[k as usize] = m.word_at(u64::from(at)).word;
            at += 4;
        }
    }
}

/// Stores words by rising register.
pub(crate) fn store_list(list: RegSet, address: u32, s: &Core, m: &mut Memory)
    requires starts { m.old.base ≤ address }
    requires within { address + 4 * length (registers list.0) ≤ m.old.base + length m.old.cells }
    requires ends { m.old.base + length m.old.cells < 2 ^ 32 }
    ensures { m.new ≡ with_cells (stored (alone s.now) address (registers list.0)) m.old }
{
    let mut at = address;
    'each: for k in 0..15u8 {
        let r = numbered(k);
        if list.has(r) {
            m.store_word(at, s.word(r));
            at += 4;
        }
    }
}

/// The address of the lowest word.
pub(crate) fn lowest(i: &Multi, bytes: u32, s: &Core) -> u32
    ensures { result ≡ lowest_of i.now.down (value (alone s.now) i.now.n) bytes }
{
    let n = s.word(i.n).bits();
    if i.down {
        moved(false, u64::from(n), bytes)
    } else {
        n
    }
}

/// The new number of the base, if it changes.
fn base_of(i: &Multi, bytes: u32, s: &Core) -> Option<u32>
    ensures { base_list i.now.n result ≡ base_moved i.now.back i.now.down i.now.n (value (alone s.now) i.now.n) bytes }
{
    if i.back {
        Some(moved(!i.down, u64::from(s.word(i.n).bits()), bytes))
    } else {
        None
    }
}

/// The word behind a list.
pub(crate) fn joined_behind(i: &Multi, address: u32, m: &Memory) -> Joined
    ensures { result ≡ word_at m.now (address + 4 * length (registers i.now.list.0)) }
{
    let behind = u64::from(address) + u64::from(4 * count(i.list));
    m.word_at(behind)
}

/// The word that pc is loaded with.
fn popped(i: &Multi, address: u32, m: &Memory) -> Word
    ensures { result ≡ popped_of i.now address m.now }
{
    joined_behind(i, address, m).word
}

/// Where control goes on: to a word that was loaded into pc, or to the next instruction.
fn onwards(pc: bool, bits: u32, next: u32) -> u32
    requires { pc ≡ true → bits % 2 ≡ 1 }
    ensures { result ≡ (if pc then bits - 1 else next) }
{
    if pc { bits - 1 } else { next }
}

/// Writes the base, and moves the words of a list.
fn move_list(i: &Multi, address: u32, bytes: u32, s: &mut Core, m: &mut Memory)
    requires bytes { bytes ≡ transfer_size i.now.list.0 i.now.pc }
    requires lies { lies_in m.old address bytes ≡ true }
    requires ends { m.old.base + length m.old.cells < 2 ^ 32 }
    ensures registers { s.new ≡ record s.old { r = write_all (list_change i.now address bytes (core_of s.old m.old)).regs s.old.r } }
    ensures memory { m.new ≡ with_cells (list_change i.now address bytes (core_of s.old m.old)).cells m.old }
{
    let base = base_of(i, bytes, s);
    if i.load {
        set_base(i.n, base, s);
        load_list(i.list, address, s, m);
        return;
    }
    store_list(i.list, address, s, m);
    set_base(i.n, base, s);
}

/// Transfers a list of words, and pc.
fn transfer(
    i: &Multi,
    address: u32,
    bytes: u32,
    next: u32,
    s: &mut Core,
    m: &mut Memory,
) -> Result<(), FaultKind>
    requires bytes { bytes ≡ transfer_size i.now.list.0 i.now.pc }
    requires lies { lies_in m.old address bytes ≡ true }
    requires ends { m.old.base + length m.old.cells < 2 ^ 32 }
    ensures done { OnOk result (Ends (list_outcome i.now address bytes (core_of s.old m.old)) next s.old m.old s.new m.new) }
    ensures fault { IfErr result (λ kind. (list_outcome i.now address bytes (core_of s.old m.old) ≡ Err kind) × (s.new ≡ s.old) × (m.new ≡ m.old)) }
{
    if is_base_askew(i.n, base_of(i, bytes, s)) {
        return Err(FaultKind::BadStack);
    }
    let bits = popped(i, address, m).bits();
    if i.pc && bits % 2 != 1 {
        return Err(FaultKind::BadJump);
    }
    move_list(i, address, bytes, s, m);
    fall(onwards(i.pc, bits, next), s);
    Ok(())
}

/// LDM, STM, PUSH and POP.
pub(crate) fn apply_multi(
    i: &Multi,
    next: u32,
    s: &mut Core,
    m: &mut Memory,
) -> Result<(), FaultKind>
    requires { m.old.base + length m.old.cells < 2 ^ 32 }
    ensures done { OnOk result ((code : CodeBytes) → Turns code (instr.Multi i.now) next s.old m.old s.new m.new) }
    ensures fault { IfErr result (λ kind. ((code : CodeBytes) → Fails code (instr.Multi i.now) next s.old m.old kind) × (s.new ≡ s.old) × (m.new ≡ m.old)) }
{
    let bytes = transfer_size(i);
    let address = lowest(i, bytes, s);
    match check_words(m, address, bytes) {
        Ok(()) => transfer(i, address, bytes, next, s, m),
        Err(kind) => Err(kind),
    }
}

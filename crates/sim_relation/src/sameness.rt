//! Whether two machines are the same up to an address map.

ghost use Rattle.std.specs.Prelude.{◌≡◌, ◌<◌, ◌↔◌, ◌&&◌, ℕ, true, length, get_or};
ghost use Rattle.std.specs.List.{list_any};
ghost use Rattle.mark_word.specs.Words.{bare, byte_of as byte};
ghost use Rattle.thumb_table.specs.States.{read};
ghost use Rattle.thumb_table.specs.CoreStates.{alone};
ghost use Rattle.skip_machine.specs.Machines.{state};
ghost use Rattle.sim_charts.specs.Words.{SameCell};
ghost use Rattle.sim_relation.specs.Same.{IsIndex, IsSame, by_map, is_same_cell as same_cell, is_same_number as same_number, is_same_word as same_word, is_shown as shown_in, seen as view, shows as shown_by};

use crate::{AddressMap, Taken};
use mark_word::{Cell, Mark, Word};
use skip_machine::Machine;
use thumb_table::{Core, Memory};

/// Byte number `index` of a number, the lowest first.
fn byte_of(index: u8, number: u32) -> u32
    requires { index < 4 }
    ensures { result ≡ byte index number }
{
    match index {
        0 => number % 256,
        1 => number / 256 % 256,
        2 => number / 256 / 256 % 256,
        _ => number / 256 / 256 / 256 % 256,
    }
}

/// Its low half or all of it, and of that a byte or all.
fn seen(low: bool, index: Option<u8>, number: u32) -> u32
    requires { IsIndex index }
    ensures { result ≡ view low index number }
{
    let half = if low { number % 0x1_0000 } else { number };
    match index {
        None => half,
        Some(k) => byte_of(k, half),
    }
}

/// Whether a pair takes an address to one of which this is seen. Bit 0 is the address's own.
fn shows(low: bool, index: Option<u8>, address: u32, shown: u32, t: Taken) -> bool
    requires { IsIndex index }
    ensures { result ≡ shown_by low index address shown t }
{
    let bit = address % 2;
    t.from == address - bit && seen(low, index, t.to - t.to % 2 + bit) == shown
}

fn is_listed(list: &[Taken], low: bool, index: Option<u8>, address: u32, shown: u32) -> bool
    requires { IsIndex index }
    ensures { result ≡ list_any (shown_by low index address shown) list.now }
{
    for t in list {
        if shows(low, index, address, shown, *t) {
            return true;
        }
    }
    false
}

/// Whether an address is taken to one of which this is seen. The end of the whole call stays.
fn is_shown(list: &[Taken], low: bool, index: Option<u8>, address: u32, shown: u32) -> bool
    requires { IsIndex index }
    ensures { result ≡ shown_in list.now low index address shown }
{
    (address == 0x7FFF_FFFF && seen(low, index, 0x7FFF_FFFF) == shown)
        || is_listed(list, low, index, address, shown)
}

/// Whether a number is the same as one with this mark, or a byte of it.
fn is_same_number(map: &AddressMap, index: Option<u8>, mark: Mark, number: u32, other: u32) -> bool
    requires { IsIndex index }
    ensures { result ≡ same_number map.now index mark number other }
{
    match mark {
        Mark::Plain => number == other,
        Mark::Entry(a) => is_shown(map.entries(), false, index, a, other),
        Mark::Return(a) => is_shown(map.returns(), false, index, a, other),
        Mark::Low(a) => is_shown(map.entries(), true, index, a, other),
    }
}

fn is_same_word(map: &AddressMap, plain: Word, hard: Word) -> bool
    ensures { result ≡ same_word map.now plain hard }
{
    is_same_number(map, None, plain.mark(), plain.bits(), hard.bits())
}

fn has_same_byte(map: &AddressMap, plain: Cell, hard: Cell) -> bool
    ensures { result ≡ same_cell map.now plain hard }
{
    plain.valid();
    match plain.piece() {
        None => plain.byte() == hard.byte(),
        Some(p) => is_same_number(
            map,
            Some(p.index),
            p.mark,
            plain.byte() as u32,
            hard.byte() as u32,
        ),
    }
}

/// Whether a byte is the same: a piece of a marked word is that byte of the word that stands for it.
fn is_same_cell(map: &AddressMap, plain: Cell, hard: Cell) -> bool
    ensures { (result ≡ true) ↔ SameCell (by_map map.now) plain hard }
{
    plain.valid();
    has_same_byte(map, plain, hard)
}

/// Whether r0 to r11 are the same.
fn are_same_registers(map: &AddressMap, plain: &Core, hard: &Core) -> bool
    ensures { (result ≡ true) ↔ ((r : ℕ) → r < 12 → same_word map.now (read (alone plain.now) r) (read (alone hard.now) r) ≡ true) }
{
    for k in 0..12usize {
        if !is_same_word(map, plain.r[k], hard.r[k]) {
            return false;
        }
    }
    true
}

/// Whether sp is the same.
fn is_same_stack(map: &AddressMap, plain: &Core, hard: &Core) -> bool
    ensures { result ≡ same_word map.now (read (alone plain.now) 13) (read (alone hard.now) 13) }
{
    is_same_word(map, plain.r[13], hard.r[13])
}

/// Whether bytes are the same.
fn are_same_cells(map: &AddressMap, plain: &[Cell], hard: &[Cell]) -> bool
    requires { length hard.now ≡ length plain.now }
    ensures { (result ≡ true) ↔ ((k : ℕ) → k < length plain.now → SameCell (by_map map.now) (get_or plain.now k (bare 0)) (get_or hard.now k (bare 0))) }
{
    for k in 0..plain.len() {
        if !is_same_cell(map, plain[k], hard[k]) {
            return false;
        }
    }
    true
}

/// Whether memory is the same.
fn is_same_memory(map: &AddressMap, plain: &Memory, hard: &Memory) -> bool
    ensures { (result ≡ true) ↔ ((hard.now.base ≡ plain.now.base) × (length hard.now.cells ≡ length plain.now.cells) × ((k : ℕ) → k < length plain.now.cells → SameCell (by_map map.now) (get_or plain.now.cells k (bare 0)) (get_or hard.now.cells k (bare 0)))) }
{
    hard.base() == plain.base()
        && hard.cells().len() == plain.cells().len()
        && are_same_cells(map, plain.cells(), hard.cells())
}

fn are_all(registers: bool, stack: bool, memory: bool) -> bool
    ensures { result ≡ (registers && (stack && memory)) }
{
    registers && stack && memory
}

/// Whether r0 to r11, sp and all memory are the same up to the addresses of code that the map takes.
pub fn same(plain: &Machine, hard: &Machine, map: &AddressMap) -> bool
    ensures { (result ≡ true) ↔ IsSame map.now (state plain.now) (state hard.now) }
{
    are_all(
        are_same_registers(map, plain.registers(), hard.registers()),
        is_same_stack(map, plain.registers(), hard.registers()),
        is_same_memory(map, plain.memory(), hard.memory()),
    )
}

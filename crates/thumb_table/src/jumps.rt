//! Where jumps may lead to in an ordinary run.

ghost use Rattle.std.specs.Prelude.{◌≡◌, ◌<◌, ◌+◌, ◌↔◌, ◌^◌, IsTrue, Contains, length};
ghost use Rattle.std.specs.List.Sorted.{IsStrictlyIncreasing};
ghost use Rattle.thumb_table.specs.Ordinary.{IsNop, IsClear, OrdinaryReturn, OrdinaryJump};

use crate::CodeBytes;
use mark_word::{Mark, Word};

fn is_nop(code: &CodeBytes, address: u32) -> bool
    ensures { IsTrue result ↔ IsNop code.now address }
{
    match code.half(address) {
        Some(half) => half == 0xbf00 || half == 0x46c0,
        None => false,
    }
}

fn is_stop(stops: &[u32], address: u32) -> bool
    requires { IsStrictlyIncreasing stops.now }
    ensures { IsTrue result ↔ Contains stops.now address }
{
    stops.binary_search(&address).is_ok()
}

/// Whether no stop is reached from an address over instructions that do nothing.
fn is_clear(code: &CodeBytes, address: u32) -> bool
    requires stops { IsStrictlyIncreasing code.now.stops }
    requires ends { code.now.base + length code.now.bytes < 2 ^ 32 }
    ensures { IsTrue result ↔ IsClear code.now address }
{
    let mut at = address;
    'walk: loop {
        if is_stop(code.stops(), at) {
            return false;
        }
        if !is_nop(code, at) {
            return true;
        }
        at += 2;
    }
}

/// Whether a return to a word is an ordinary one.
pub(crate) fn is_ordinary_return(code: &CodeBytes, w: Word) -> bool
    requires stops { IsStrictlyIncreasing code.now.stops }
    requires ends { code.now.base + length code.now.bytes < 2 ^ 32 }
    ensures { IsTrue result ↔ OrdinaryReturn code.now w }
{
    let bits = w.bits();
    match w.mark() {
        Mark::Return(_) => bits == 0x7fff_ffff || is_clear(code, bits - bits % 2),
        _ => false,
    }
}

/// Whether a jump to a word is an ordinary one.
pub(crate) fn is_ordinary_jump(code: &CodeBytes, w: Word) -> bool
    requires stops { IsStrictlyIncreasing code.now.stops }
    requires ends { code.now.base + length code.now.bytes < 2 ^ 32 }
    ensures { IsTrue result ↔ OrdinaryJump code.now w }
{
    match w.mark() {
        Mark::Entry(_) => true,
        _ => is_ordinary_return(code, w),
    }
}

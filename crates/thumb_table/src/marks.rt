//! Marks at places of the code.

ghost use Rattle.std.specs.Prelude.{◌≡◌, ◌<◌, ◌^◌, map};
ghost use Rattle.std.specs.List.Sorted.{IsStrictlyIncreasing};
ghost use Rattle.thumb_table.specs.Effects.{mark_at, marked, low_half, completes, completed};

use crate::PlaceMark;
use mark_word::{Mark, Word};

/// The mark at a place, by halving.
pub(crate) fn mark_at(marks: &[PlaceMark], address: u32) -> Mark
    requires { IsStrictlyIncreasing (map (λ p. p.at) marks.now) }
    ensures { result ≡ mark_at marks.now address }
{
    let mut low = 0;
    let mut high = marks.len();
    'halve: while low < high {
        let middle = low + (high - low) / 2;
        if marks[middle].at < address {
            low = middle + 1;
        } else {
            high = middle;
        }
    }
    if low < marks.len() && marks[low].at == address {
        marks[low].mark
    } else {
        Mark::Plain
    }
}

/// A word with a mark, where the mark stands on its bits.
pub(crate) fn marked(bits: u32, mark: Mark) -> Word
    ensures { result ≡ marked bits mark }
{
    match mark {
        Mark::Entry(a) if a == bits => Word::entry(a),
        Mark::Return(a) if a == bits => Word::returning(a),
        Mark::Low(a) if a % 0x1_0000 == bits => Word::low(a),
        _ => Word::plain(bits),
    }
}

/// The word of a MOVW at a place with this mark.
pub(crate) fn low_half(imm: u16, mark: Mark) -> Word
    ensures { result ≡ low_half imm mark }
{
    match mark {
        Mark::Low(_) => marked(u32::from(imm), mark),
        _ => Word::plain(u32::from(imm)),
    }
}

/// Whether a MOVT at a place with a mark completes the address of which the register has the other.
fn completes(place: Mark, old: Mark) -> bool
    ensures { result ≡ completes place old }
{
    match (place, old) {
        (Mark::Entry(a), Mark::Low(b)) => a == b,
        (Mark::Entry(a), Mark::Entry(b)) => a == b,
        _ => false,
    }
}

/// The word of a MOVT at a place with this mark.
pub(crate) fn completed(imm: u16, old: Word, place: Mark) -> Word
    ensures { result ≡ completed imm old place }
{
    let bits = u32::from(imm) * 0x1_0000 + old.bits() % 0x1_0000;
    if completes(place, old.mark()) {
        marked(bits, place)
    } else {
        Word::plain(bits)
    }
}

//! The first fault of a file's headers, names and symbols.

ghost use Rattle.std.specs.Prelude.{◌≡◌, ◌<◌, ◌^◌, ℕ, length};
ghost use Rattle.elf_model.specs.declared.refusals.Limit.{Limit as OfLimit};
ghost use Rattle.elf_read.specs.FirstFaults.{IsFirstBelow, spot_at};

use crate::format::{first_not_arm, first_not_elf};
use crate::names::first_bad_name;
use crate::places::Place;
use crate::symbols::first_bad_symbol;
use crate::tables::first_bad_table;
use elf_model::{Refusal, Spot};

/// A refusal at a place of the one file that is read.
pub(crate) fn spot_at(refusal: Refusal, p: Place) -> Spot
    ensures { result ≡ spot_at refusal p }
{
    Spot {
        refusal,
        file: 0,
        section: p.section,
        offset: p.offset,
    }
}

/// The first fault that isn't one of a relocation, of a number or of a section's kind.
pub(crate) fn first_malformed(bytes: &[u8]) -> Option<Spot>
    requires { length bytes.now < 2 ^ 32 }
    ensures { (l : OfLimit) → IsFirstBelow bytes.now l 6 result }
{
    if let Some(p) = first_not_elf(bytes) {
        return Some(spot_at(Refusal::NotElf, p));
    }
    if let Some(p) = first_not_arm(bytes) {
        return Some(spot_at(Refusal::NotArmRel, p));
    }
    if let Some(p) = first_bad_table(bytes) {
        return Some(spot_at(Refusal::BadTable, p));
    }
    if let Some(p) = first_bad_name(bytes) {
        return Some(spot_at(Refusal::BadName, p));
    }
    if let Some(p) = first_bad_symbol(bytes) {
        return Some(spot_at(Refusal::BadSymbol, p));
    }
    None
}

//! Whether a file is a relocatable file for Arm.

ghost use Rattle.std.specs.Prelude.{◌≤◌, ◌↔◌, ℕ, length, IsTrue};
ghost use Rattle.elf_model.specs.declared.refusals.Limit.{Limit};
ghost use Rattle.elf_model.specs.declared.refusals.Refusal.TheVariants.{NotElf, NotArmRel};
ghost use Rattle.elf_read.specs.Faults.{Fault};
ghost use Rattle.elf_read.specs.Formats.{IsElf};
ghost use Rattle.elf_read.specs.Places.{IsLowest};

use crate::headers::{half, word};
use crate::places::Place;

/// The first bytes of a file.
const MAGIC: [u8; 4] = [0x7F, 0x45, 0x4C, 0x46];

/// Whether a file begins as those of the format do, and is as long as a file header.
fn is_elf(bytes: &[u8]) -> bool
    ensures { IsTrue result ↔ IsElf bytes.now }
{
    bytes.len() >= 52 && &bytes[..4] == MAGIC.as_slice()
}

/// Where the file isn't of the format at all.
pub(crate) fn first_not_elf(bytes: &[u8]) -> Option<Place>
    ensures { (l : Limit) → IsLowest (Fault bytes.now l NotElf) result }
{
    if is_elf(bytes) {
        return None;
    }
    Some(Place {
        section: 0,
        offset: 0,
    })
}

/// Where the file header isn't that of a relocatable file for Arm, little-endian with 32 bits,
/// version 5 of the ABI.
pub(crate) fn first_not_arm(bytes: &[u8]) -> Option<Place>
    requires { 52 ≤ length bytes.now }
    ensures { (l : Limit) → IsLowest (Fault bytes.now l NotArmRel) result }
{
    let offset = if bytes[4] != 1 {
        4
    } else if bytes[5] != 1 {
        5
    } else if half(bytes, 16) != 1 {
        16
    } else if half(bytes, 18) != 40 {
        18
    } else if word(bytes, 36) / 0x100_0000 != 5 {
        36
    } else {
        return None;
    };
    Some(Place { section: 0, offset })
}

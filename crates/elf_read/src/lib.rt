//! Reads objects from the bytes of relocatable files.
#![tactic(auto)]

ghost use Rattle.std.specs.Prelude.{◌≡◌, ◌<◌, ◌^◌, length, IfOk, IfErr, OnOk};
ghost use Rattle.elf_model.specs.Files.{StandsFor};
ghost use Rattle.elf_read.specs.Faults.{IsFaultless, dropped_count, IsDeniedFor};

mod building;
mod format;
mod headers;
mod keeping;
mod laws;
mod limits;
mod malformed;
mod maps;
mod names;
mod places;
mod reloc_faults;
mod strings;
mod symbols;
mod tables;
mod unfit;
mod unhandled;
mod whole;

use elf_model::{Deny, Limit, Object};
use keeping::{kept_flags, symbol_flags};
pub use laws::{object_has_one_map, written_files_are_faultless};
use malformed::first_malformed;
pub use maps::read_map;
use std::alloc::Global;
use unfit::first_unfit;
use whole::read_whole;

/// An object that was read, and how many sections were left out: those of debug information and of
/// unwind tables, and others that no linked program has.
#[derive(Debug, Drop)]
pub struct Read {
    pub object: Object,
    pub dropped: u32,
}

/// The object that the bytes stand for, or the first fault of the file: its lowest number, then the
/// lowest section, then the lowest offset.
pub fn read_object(alloc: Global, bytes: &[u8], limit: &Limit) -> Result<Read, Deny>
    requires { length bytes.now < 2 ^ 32 }
    ensures object { IfOk result (λ read. StandsFor bytes.now read.object) }
    ensures faultless { OnOk result (IsFaultless bytes.now limit.now) }
    ensures dropped { IfOk result (λ read. read.dropped ≡ dropped_count bytes.now) }
    ensures refused { IfErr result (IsDeniedFor bytes.now limit.now) }
{
    if let Some(spot) = first_malformed(bytes) {
        return Err(Deny::Refused(spot));
    }
    let kept = kept_flags(alloc, bytes)?;
    let symbols = symbol_flags(alloc, bytes, &kept)?;
    if let Some(spot) = first_unfit(alloc, bytes, &kept, &symbols, limit)? {
        return Err(Deny::Refused(spot));
    }
    Ok(read_whole(alloc, bytes, &kept, &symbols, limit)?)
}

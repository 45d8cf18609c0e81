//! The first fault of a file whose headers, names and symbols have none.

ghost use Rattle.std.specs.Prelude.{◌≡◌, ◌<◌, ◌^◌, length, IfOk};
ghost use Rattle.elf_read.specs.FirstFaults.{IsFirstBelow, IsFaultlessBelow};
ghost use Rattle.elf_read.specs.HeaderFaults.{IsTabled};
ghost use Rattle.elf_read.specs.Keeping.{kept_flags, symbol_flags, HasHomes};

use crate::limits::first_too_many;
use crate::malformed::spot_at;
use crate::reloc_faults::first_bad_reloc;
use crate::unhandled::first_bad_kind;
use elf_model::{Limit, Refusal, Spot};
use std::alloc::{AllocError, Global};

/// The first fault of all that a file has, if its headers, names and symbols have none.
pub(crate) fn first_unfit(
    alloc: Global,
    bytes: &[u8],
    kept: &[bool],
    symbols: &[bool],
    limit: &Limit,
) -> Result<Option<Spot>, AllocError>
    requires tabled { IsTabled bytes.now }
    requires small { length bytes.now < 2 ^ 32 }
    requires homes { HasHomes bytes.now }
    requires kept { kept.now ≡ kept_flags bytes.now }
    requires symbols { symbols.now ≡ symbol_flags bytes.now }
    requires formed { IsFaultlessBelow bytes.now limit.now 6 }
    ensures { IfOk result (IsFirstBelow bytes.now limit.now 9) }
{
    if let Some(p) = first_bad_reloc(alloc, bytes, kept, symbols)? {
        return Ok(Some(spot_at(Refusal::BadReloc, p)));
    }
    if let Some(p) = first_too_many(bytes, kept, limit) {
        return Ok(Some(spot_at(Refusal::TooMany, p)));
    }
    if let Some(p) = first_bad_kind(bytes, limit) {
        return Ok(Some(spot_at(Refusal::SectionKind, p)));
    }
    Ok(None)
}

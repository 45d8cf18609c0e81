//! The object that a file without faults stands for.

ghost use Rattle.std.specs.Prelude.{◌≡◌, ◌<◌, ◌^◌, length, IfOk, IsTrue, ◌&&◌, not};
ghost use Rattle.elf_model.specs.Files.{StandsFor, header, header_count, is_table, is_dropped};
ghost use Rattle.elf_read.specs.Faults.{IsFaultless, IsHeader, dropped_count};
ghost use Rattle.elf_read.specs.HeaderFaults.{IsTabled};
ghost use Rattle.elf_read.specs.Keeping.{kept_flags, symbol_flags, HasHomes, HasSymbols};

use crate::Read;
use crate::building::{relocs, sections, symbols};
use crate::headers::{count, header_at, word};
use crate::keeping::{counts, is_dropped};
use elf_model::{Limit, Object, is_table};
use std::alloc::{AllocError, Global};

/// Whether a section is left out and counted.
fn is_counted(bytes: &[u8], h: usize) -> bool
    requires tabled { IsTabled bytes.now }
    requires listed { IsHeader bytes.now h }
    ensures { result ≡ (not (is_table (header bytes.now h).kind) && is_dropped bytes.now h) }
{
    !is_table(header_at(bytes, h).kind) && is_dropped(bytes, h)
}

/// How many sections are left out.
fn dropped(bytes: &[u8]) -> u32
    requires { IsTabled bytes.now }
    ensures { result ≡ dropped_count bytes.now }
{
    let mut n: u32 = 0;
    for h in 1..count(bytes) {
        if is_counted(bytes, h) {
            n += 1;
        }
    }
    n
}

/// The object that a file without faults stands for.
fn object(
    alloc: Global,
    bytes: &[u8],
    kept: &[bool],
    flags: &[bool],
    _limit: &Limit,
) -> Result<Object, AllocError>
    requires faultless { IsFaultless bytes.now _limit.now }
    requires tabled { IsTabled bytes.now }
    requires small { length bytes.now < 2 ^ 32 }
    requires homes { HasHomes bytes.now }
    requires named { HasSymbols bytes.now }
    requires kept { kept.now ≡ kept_flags bytes.now }
    requires symbols { flags.now ≡ symbol_flags bytes.now }
    ensures { IfOk result (StandsFor bytes.now) }
{
    let _n = count(bytes);
    let numbers = counts(alloc, kept)?;
    let symbol_numbers = counts(alloc, flags)?;
    let sections = sections(alloc, bytes, kept)?;
    let symbols = symbols(alloc, bytes, kept, &numbers)?;
    let relocs = relocs(alloc, bytes, kept, &numbers, &symbol_numbers)?;
    Ok(elf_model::object(sections, symbols, relocs, word(bytes, 36)).unwrap())
}

/// What is read of a file without faults.
pub(crate) fn read_whole(
    alloc: Global,
    bytes: &[u8],
    kept: &[bool],
    flags: &[bool],
    limit: &Limit,
) -> Result<Read, AllocError>
    requires faultless { IsFaultless bytes.now limit.now }
    requires tabled { IsTabled bytes.now }
    requires small { length bytes.now < 2 ^ 32 }
    requires homes { HasHomes bytes.now }
    requires kept { kept.now ≡ kept_flags bytes.now }
    requires symbols { flags.now ≡ symbol_flags bytes.now }
    ensures object { IfOk result (λ read. StandsFor bytes.now read.object) }
    ensures dropped { IfOk result (λ read. read.dropped ≡ dropped_count bytes.now) }
{
    let object = object(alloc, bytes, kept, flags, limit)?;
    Ok(Read {
        object,
        dropped: dropped(bytes),
    })
}

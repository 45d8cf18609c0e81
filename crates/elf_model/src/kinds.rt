//! The types, flags, names and alignments of sections.

ghost use Rattle.std.specs.Prelude.{◌≡◌, ◌<◌, ◌+◌, ◌^◌};
ghost use Rattle.elf_model.specs.Objects.{is_writable, is_alloc, is_exec, is_code_kind, is_memory_kind, is_kept_kind, is_dropped_name, is_alignment};
ghost use Rattle.elf_model.specs.Files.{is_table, is_refused_kind};
ghost use Rattle.elf_model.specs.Canonical.{round_up};

use crate::numbers::{
    ARM_ATTRIBUTES, FINI_ARRAY, GROUP, INIT_ARRAY, NOBITS, NOTE, PROGBITS, REL, RELA, STRTAB,
    SYMTAB, SYMTAB_SHNDX,
};

/// Whether a section with these flags may be written to.
pub fn is_writable(flags: u32) -> bool
    ensures { result ≡ is_writable flags }
{
    flags % 2 == 1
}

/// Whether a section with these flags is in memory.
pub fn is_alloc(flags: u32) -> bool
    ensures { result ≡ is_alloc flags }
{
    flags / 2 % 2 == 1
}

/// Whether a section with these flags may be executed.
pub fn is_exec(flags: u32) -> bool
    ensures { result ≡ is_exec flags }
{
    flags / 4 % 2 == 1
}

/// Whether a section of this type and with these flags has code.
pub fn is_code_kind(kind: u32, flags: u32) -> bool
    ensures { result ≡ is_code_kind kind flags }
{
    kind == PROGBITS && is_alloc(flags) && is_exec(flags)
}

/// Whether sections of a type are tables of the file.
pub fn is_table(kind: u32) -> bool
    ensures { result ≡ is_table kind }
{
    kind == SYMTAB || kind == STRTAB || kind == REL
}

/// Whether sections of a type are refused wherever they stand.
pub fn is_refused_kind(kind: u32) -> bool
    ensures { result ≡ is_refused_kind kind }
{
    kind == GROUP || kind == RELA || kind == SYMTAB_SHNDX
}

/// Whether sections of a type may be in memory.
pub fn is_memory_kind(kind: u32) -> bool
    ensures { result ≡ is_memory_kind kind }
{
    kind == PROGBITS || kind == NOBITS || kind == INIT_ARRAY || kind == FINI_ARRAY
}

/// Whether sections of this type and with these flags are kept.
pub fn is_kept_kind(kind: u32, flags: u32) -> bool
    ensures { result ≡ is_kept_kind kind flags }
{
    if is_alloc(flags) {
        is_memory_kind(kind)
    } else {
        kind == PROGBITS || kind == NOTE || kind == ARM_ATTRIBUTES
    }
}

/// Whether sections of a name are dropped: those of debug information and of unwind tables.
pub fn is_dropped_name(name: &[u8]) -> bool
    ensures { result ≡ is_dropped_name name.now }
{
    name.starts_with(b".debug")
        || name.starts_with(b".ARM.exidx")
        || name.starts_with(b".ARM.extab")
}

/// Whether a number is a power of two from 1 to 4,096.
pub fn is_alignment(a: u32) -> bool
    ensures { result ≡ is_alignment a }
{
    a == 1
        || a == 2
        || a == 4
        || a == 8
        || a == 16
        || a == 32
        || a == 64
        || a == 128
        || a == 256
        || a == 512
        || a == 1024
        || a == 2048
        || a == 4096
}

/// The next multiple of an alignment.
pub fn round_up(at: u64, align: u64) -> u64
    requires aligned { 0 < align }
    requires room { at + align < 2 ^ 64 }
    ensures { result ≡ round_up at align }
{
    (at + align - 1) / align * align
}

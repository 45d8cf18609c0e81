//! The fields of a file, and its section headers.

ghost use Rattle.std.specs.Prelude.{◌≡◌, ◌≤◌, ◌<◌, ◌+◌, ◌*◌, ℕ, length};
ghost use Rattle.elf_model.specs.Fields.{half_at, word_at};
ghost use Rattle.elf_model.specs.Files.{header_count, header as header_of};
ghost use Rattle.elf_read.specs.Headers.{fields_of, HasHeaders};

use byteorder::{ByteOrder, LittleEndian};

/// A section header (ELF, section header), without the address that a linker sets.
#[derive(Clone, Copy, Debug)]
pub(crate) struct Header {
    pub(crate) name: u32,
    pub(crate) kind: u32,
    pub(crate) flags: u32,
    pub(crate) offset: u32,
    pub(crate) size: u32,
    pub(crate) link: u32,
    pub(crate) info: u32,
    pub(crate) align: u32,
    pub(crate) entry: u32,
}

/// The number in two bytes.
pub(crate) fn half(bytes: &[u8], at: usize) -> u16
    requires { at + 2 ≤ length bytes.now }
    ensures { result ≡ half_at bytes.now at }
{
    LittleEndian::read_u16(&bytes[at..])
}

/// The number in four bytes.
pub(crate) fn word(bytes: &[u8], at: usize) -> u32
    requires { at + 4 ≤ length bytes.now }
    ensures { result ≡ word_at bytes.now at }
{
    LittleEndian::read_u32(&bytes[at..])
}

/// How many section headers the file has, the null header with them.
pub(crate) fn count(bytes: &[u8]) -> usize
    requires { 52 ≤ length bytes.now }
    ensures number { result ≡ header_count bytes.now }
    ensures small { result < 65536 }
{
    half(bytes, 48) as usize
}

/// Where a section header starts.
pub(crate) fn place(bytes: &[u8], h: usize) -> usize
    requires long { 52 ≤ length bytes.now }
    requires small { h < 65536 }
    ensures { result ≡ word_at bytes.now 32 + 40 * h }
{
    word(bytes, 32) as usize + 40 * h
}

/// A section header.
pub(crate) fn header_at(bytes: &[u8], h: usize) -> Header
    requires headers { HasHeaders bytes.now }
    requires listed { h < header_count bytes.now }
    ensures { fields_of result ≡ header_of bytes.now h }
{
    let count = half(bytes, 48);
    prove!(h < count as usize);
    let at = place(bytes, h);
    Header {
        name: word(bytes, at),
        kind: word(bytes, at + 4),
        flags: word(bytes, at + 8),
        offset: word(bytes, at + 16),
        size: word(bytes, at + 20),
        link: word(bytes, at + 24),
        info: word(bytes, at + 28),
        align: word(bytes, at + 32),
        entry: word(bytes, at + 36),
    }
}

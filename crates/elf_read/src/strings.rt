//! The texts of string tables.

ghost use Rattle.std.specs.Prelude.{◌≡◌, ◌≢◌, ◌↔◌, ◌<◌, ◌^◌, ℕ, length, IsTrue};
ghost use Rattle.elf_model.specs.Constants.{nobits, strtab};
ghost use Rattle.elf_model.specs.Files.{header as header_of, contents, text_at, EndsAt, IsKind};
ghost use Rattle.elf_read.specs.Faults.{IsHeader};
ghost use Rattle.elf_read.specs.HeaderFaults.{IsTabled};
ghost use Rattle.elf_read.specs.Texts.{IsTextOrNone};

use crate::headers::header_at;

/// What a section has in the file.
pub(crate) fn contents(bytes: &[u8], h: usize) -> &[u8]
    requires tabled { IsTabled bytes.now }
    requires listed { IsHeader bytes.now h }
    requires filled { (header_of bytes.now h).kind ≢ nobits }
    ensures { result.now ≡ contents bytes.now h }
{
    let f = header_at(bytes, h);
    let start = f.offset as usize;
    let end = start + f.size as usize;
    &bytes[start..end]
}

/// How long the text at a place of a string table is, if it ends within 4,096 bytes.
fn text_len(table: &[u8], at: u32) -> Option<usize>
    ensures { IsTextOrNone table.now at result }
{
    let start = at as usize;
    for n in 0..4096 {
        if table.len() <= start + n {
            return None;
        }
        if table[start + n] == 0 {
            return Some(n);
        }
    }
    None
}

/// Whether the text at a place of a string table ends.
pub(crate) fn has_text(bytes: &[u8], table: usize, at: u32) -> bool
    requires tabled { IsTabled bytes.now }
    requires strings { IsKind bytes.now table strtab }
    ensures { IsTrue result ↔ EndsAt bytes.now table at }
{
    text_len(contents(bytes, table), at).is_some()
}

/// The text at a place of a string table, where it ends.
pub(crate) fn name_of(bytes: &[u8], table: usize, at: u32) -> &[u8]
    requires tabled { IsTabled bytes.now }
    requires strings { IsKind bytes.now table strtab }
    requires ends { EndsAt bytes.now table at }
    ensures { result.now ≡ text_at bytes.now table at }
{
    let table = contents(bytes, table);
    let Some(n) = text_len(table, at) else {
        unreachable!();
    };
    let start = at as usize;
    &table[start..start + n]
}

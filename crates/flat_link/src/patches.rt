//! Bytes and cells that are put over others.

ghost use Rattle.std.specs.Prelude.{◌≡◌, ◌+◌, ◌≤◌, length};
ghost use Rattle.elf_model.specs.Fields.{half, word};
ghost use Rattle.flat_link.specs.Patches.{put_over, code_bytes};

use byteorder::{ByteOrder, LittleEndian};
use mark_word::Cell;
use thumb_encode::Code;

fn put_bytes(bytes: &mut [u8], x: usize, run: &[u8])
    requires { x + length run.now ≤ length bytes.old }
    ensures { bytes.new ≡ put_over bytes.old x run.now }
{
    bytes[x..x + run.len()].copy_from_slice(run);
}

fn put_half(bytes: &mut [u8], x: usize, h: u16)
    requires { x + 2 ≤ length bytes.old }
    ensures { bytes.new ≡ put_over bytes.old x (half h) }
{
    let mut run = [0u8; 2];
    LittleEndian::write_u16(&mut run, h);
    put_bytes(bytes, x, &run);
}

/// Puts the four bytes of a word.
pub(crate) fn put_word(bytes: &mut [u8], x: usize, n: u32)
    requires { x + 4 ≤ length bytes.old }
    ensures { bytes.new ≡ put_over bytes.old x (word n) }
{
    let mut run = [0u8; 4];
    LittleEndian::write_u32(&mut run, n);
    put_bytes(bytes, x, &run);
}

/// Puts halfwords.
pub(crate) fn put_code(bytes: &mut [u8], x: usize, code: Code)
    requires { x + length (code_bytes code) ≤ length bytes.old }
    ensures { bytes.new ≡ put_over bytes.old x (code_bytes code) }
{
    match code {
        Code::Half(h) => put_half(bytes, x, h),
        Code::Full(first, second) => put_word(bytes, x, first as u32 + 0x1_0000 * second as u32),
    }
}

/// Puts cells.
pub(crate) fn put_cells(cells: &mut [Cell], x: usize, run: &[Cell])
    requires { x + length run.now ≤ length cells.old }
    ensures { cells.new ≡ put_over cells.old x run.now }
{
    cells[x..x + run.len()].copy_from_slice(run);
}

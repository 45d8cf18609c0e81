//! Little-endian fields at the end of a list of bytes.

ghost use Rattle.std.specs.Prelude.{◌≡◌, ◌++◌, OnOk, replicate};
ghost use Rattle.std.specs.List.{flat_map};
ghost use Rattle.elf_model.specs.Fields.{half, word};

use byteorder::{ByteOrder, LittleEndian};
use std::alloc::AllocError;

/// Puts the low two bytes of a number.
pub(crate) fn put_half(out: &mut Vec<u8>, x: usize) -> Result<(), AllocError>
    ensures { OnOk result (out.new.items ≡ out.old.items ++ half x) }
{
    let mut bytes = [0u8; 8];
    LittleEndian::write_u64(&mut bytes, x as u64);
    out.extend_from_slice(&bytes[..2])
}

/// Puts the low two bytes of each of these numbers.
pub(crate) fn put_halves(out: &mut Vec<u8>, numbers: &[usize]) -> Result<(), AllocError>
    ensures { OnOk result (out.new.items ≡ out.old.items ++ flat_map half numbers.now) }
{
    for x in numbers {
        put_half(out, *x)?;
    }
    Ok(())
}

/// Puts the low four bytes of a number.
pub(crate) fn put_word(out: &mut Vec<u8>, x: usize) -> Result<(), AllocError>
    ensures { OnOk result (out.new.items ≡ out.old.items ++ word x) }
{
    let mut bytes = [0u8; 8];
    LittleEndian::write_u64(&mut bytes, x as u64);
    out.extend_from_slice(&bytes[..4])
}

/// Puts the low four bytes of each of these numbers.
pub(crate) fn put_words(out: &mut Vec<u8>, numbers: &[usize]) -> Result<(), AllocError>
    ensures { OnOk result (out.new.items ≡ out.old.items ++ flat_map word numbers.now) }
{
    for x in numbers {
        put_word(out, *x)?;
    }
    Ok(())
}

/// Puts so many zeros.
pub(crate) fn put_zeros(out: &mut Vec<u8>, n: usize) -> Result<(), AllocError>
    ensures { OnOk result (out.new.items ≡ out.old.items ++ replicate n 0) }
{
    for done in 0..n {
        out.push(0)?;
    }
    Ok(())
}

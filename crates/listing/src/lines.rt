//! Lines of data and of instructions, each with its line feed.

ghost use Rattle.std.specs.Prelude.{◌≡◌, ◌+◌, ◌^◌, ◌<◌, ◌≤◌, ◌++◌, ◌∷◌, [], OnOk, length, false};
ghost use Rattle.std.specs.Fmt.{digit_glyph};
ghost use Rattle.thumb_text.specs.Listing.{line_of};
ghost use Rattle.thumb_text.specs.Pieces.{hex_word};
ghost use Rattle.listing.specs.Listings.{hex_digits, byte_line, short_line, word_line, text_of_lines};

use byteorder::{ByteOrder, LittleEndian};
use std::alloc::AllocError;
use thumb_instr::Instr;
use thumb_text::{Line, list_line};

/// A hexadecimal digit.
fn hex_digit(n: u32) -> u8
    requires { n < 16 }
    ensures { result ≡ digit_glyph false n }
{
    if n < 10 {
        b'0' + n as u8
    } else {
        b'a' + (n - 10) as u8
    }
}

/// Appends the two digits of a byte.
#[tactic(auto, unfolding(crate::specs::Listings::hex_digits))]
fn push_byte_digits(text: &mut Vec<u8>, n: u8) -> Result<(), AllocError>
    ensures { OnOk result (text.new.items ≡ text.old.items ++ hex_digits (1 ∷ 0 ∷ []) n) }
{
    let n = u32::from(n);
    text.extend_from_slice(&[hex_digit(n / 16), hex_digit(n % 16)])
}

/// Appends the four digits of a halfword.
#[tactic(auto, unfolding(crate::specs::Listings::hex_digits))]
fn push_short_digits(text: &mut Vec<u8>, n: u16) -> Result<(), AllocError>
    ensures { OnOk result (text.new.items ≡ text.old.items ++ hex_digits (3 ∷ 2 ∷ 1 ∷ 0 ∷ []) n) }
{
    let n = u32::from(n);
    text.extend_from_slice(&[
        hex_digit(n / 4096),
        hex_digit(n / 256 % 16),
        hex_digit(n / 16 % 16),
        hex_digit(n % 16),
    ])
}

/// Appends the eight digits of a word.
#[tactic(auto, unfolding(thumb_text::specs::Pieces::hex_word))]
fn push_word_digits(text: &mut Vec<u8>, n: u32) -> Result<(), AllocError>
    ensures { OnOk result (text.new.items ≡ text.old.items ++ hex_word n) }
{
    text.extend_from_slice(&[
        hex_digit(n >> 28),
        hex_digit((n >> 24) % 16),
        hex_digit((n >> 20) % 16),
        hex_digit((n >> 16) % 16),
        hex_digit((n >> 12) % 16),
        hex_digit((n >> 8) % 16),
        hex_digit((n >> 4) % 16),
        hex_digit(n % 16),
    ])
}

/// Appends the line of a byte.
pub(crate) fn push_byte_line(text: &mut Vec<u8>, bytes: &[u8], at: u32) -> Result<(), AllocError>
    requires { at < length bytes.now }
    ensures { OnOk result (text.new.items ≡ text.old.items ++ text_of_lines (byte_line bytes.now at ∷ [])) }
{
    push_word_digits(text, at)?;
    text.extend_from_slice(b"  .byte 0x")?;
    push_byte_digits(text, bytes[at as usize])?;
    text.push(b'\n')?;
    Ok(())
}

/// Appends the line of a halfword.
pub(crate) fn push_short_line(text: &mut Vec<u8>, bytes: &[u8], at: u32) -> Result<(), AllocError>
    requires { at + 2 ≤ length bytes.now }
    ensures { OnOk result (text.new.items ≡ text.old.items ++ text_of_lines (short_line bytes.now at ∷ [])) }
{
    push_word_digits(text, at)?;
    text.extend_from_slice(b"  .short 0x")?;
    push_short_digits(text, LittleEndian::read_u16(&bytes[at as usize..]))?;
    text.push(b'\n')?;
    Ok(())
}

/// Appends the line of a word.
pub(crate) fn push_word_line(text: &mut Vec<u8>, bytes: &[u8], at: u32) -> Result<(), AllocError>
    requires { at + 4 ≤ length bytes.now }
    ensures { OnOk result (text.new.items ≡ text.old.items ++ text_of_lines (word_line bytes.now at ∷ [])) }
{
    push_word_digits(text, at)?;
    text.extend_from_slice(b"  .word 0x")?;
    push_word_digits(text, LittleEndian::read_u32(&bytes[at as usize..]))?;
    text.push(b'\n')?;
    Ok(())
}

/// Appends the line of an instruction at an offset.
pub(crate) fn push_instr_line(text: &mut Vec<u8>, i: &Instr, at: u32) -> Result<(), AllocError>
    ensures { OnOk result (text.new.items ≡ text.old.items ++ text_of_lines (line_of i.now at ∷ [])) }
{
    let mut line = Line::new();
    list_line(i, at, &mut line);
    text.extend_from_slice(line.bytes())?;
    text.push(b'\n')?;
    Ok(())
}

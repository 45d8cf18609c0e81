//! The buffer of a line, and what is appended to it.

ghost use Rattle.std.specs.Prelude.{◌≡◌, ◌+◌, ◌<◌, ◌≤◌, false, [], ◌∷◌, ◌++◌, length};
ghost use Rattle.std.specs.Fmt.{decimal, digit_glyph};
ghost use Rattle.thumb_text.specs.Names.{register, flag_mark};
ghost use Rattle.thumb_text.specs.Pieces.{hex_word, numeral, directed, address};

use std::marker::Model;
use thumb_instr::Reg;

/// The text of a line, without a line end, in a buffer of 80 bytes; seen as the list of its bytes.
#[derive(Drop)]
pub struct Line {
    buffer: [u8; 80],
    len: usize,
}

impl Model for Line {
    ghost use Rattle.std.specs.Prelude.{ℕ, ◌≤◌, List, take};

    ghost Value = { List ℕ };

    ghost view = { λ l. take l.len l.buffer };

    ghost invariant = { λ l. l.len ≤ 80 };
}

impl Line {
    /// An empty line.
    pub fn new() -> Line
        ensures { result ≡ [] }
    {
        Line {
            buffer: [0; 80],
            len: 0,
        }
    }

    /// The text, of at most 80 bytes.
    pub fn bytes(&self) -> &[u8]
        ensures text { result.now ≡ self.now }
        ensures short { length result.now ≤ 80 }
    {
        &self.buffer[..self.len]
    }

    /// Forgets the text.
    pub(crate) fn clear(&mut self)
        ensures { self.new ≡ [] }
    {
        self.len = 0;
    }

    /// Appends a byte.
    pub(crate) fn push(&mut self, byte: u8)
        requires { length self.old < 80 }
        ensures { self.new ≡ self.old ++ byte ∷ [] }
    {
        self.buffer[self.len] = byte;
        self.len += 1;
    }

    /// Appends a text.
    pub(crate) fn push_text(&mut self, text: &str)
        requires { length self.old + length text.now ≤ 80 }
        ensures { self.new ≡ self.old ++ text.now }
    {
        for byte in text.as_bytes() {
            self.push(*byte);
        }
    }

    /// Appends the decimal digits of a number.
    fn push_digits(&mut self, n: u32)
        requires { length self.old + length (decimal n) ≤ 80 }
        ensures { self.new ≡ self.old ++ decimal n }
    {
        if n < 10 {
            self.push(b'0' + n as u8);
        } else {
            self.push_digits(n / 10);
            self.push(b'0' + (n % 10) as u8);
        }
    }

    /// Appends a decimal number, which has at most ten digits.
    pub(crate) fn push_decimal(&mut self, n: u32)
        requires { length self.old ≤ 70 }
        ensures text { self.new ≡ self.old ++ decimal n }
        ensures short { length self.new ≤ length self.old + 10 }
    {
        self.push_digits(n);
    }

    /// Appends a decimal number of at most two digits.
    pub(crate) fn push_small(&mut self, n: u32)
        requires room { length self.old ≤ 78 }
        requires small { n < 100 }
        ensures text { self.new ≡ self.old ++ decimal n }
        ensures short { length self.new ≤ length self.old + 2 }
        ensures shorter { n < 10 → length self.new ≤ length self.old + 1 }
    {
        self.push_digits(n);
    }

    /// Appends the eight hexadecimal digits of a word.
    #[tactic(auto, unfolding(crate::specs::Pieces::hex_word))]
    pub(crate) fn push_word(&mut self, n: u32)
        requires { length self.old ≤ 72 }
        ensures text { self.new ≡ self.old ++ hex_word n }
        ensures long { length self.new ≡ length self.old + 8 }
    {
        self.push(hex_digit(n >> 28));
        self.push(hex_digit((n >> 24) % 16));
        self.push(hex_digit((n >> 20) % 16));
        self.push(hex_digit((n >> 16) % 16));
        self.push(hex_digit((n >> 12) % 16));
        self.push(hex_digit((n >> 8) % 16));
        self.push(hex_digit((n >> 4) % 16));
        self.push(hex_digit(n % 16));
    }
}

/// A hexadecimal digit.
fn hex_digit(n: u32) -> u8
    requires { n < 16 }
    ensures { result ≡ digit_glyph false n }
{
    if n < 10 {
        b'0' + n as u8
    } else {
        b'a' + (n - 10) as u8
    }
}

//! Words, halfwords and bytes of memory, little-endian.

ghost use Rattle.std.specs.Prelude.{◌≡◌, ◌<◌, ◌+◌, ◌^◌, true, [], ◌∷◌, length};
ghost use Rattle.mark_word.specs.Words.{bare, byte_of};
ghost use Rattle.mark_word.specs.Marks.{pieces};
ghost use Rattle.thumb_table.specs.Effects.{lies_in, cell_at, word_at, half_at, from};
ghost use Rattle.thumb_table.specs.Views.{with_cells};

use crate::Memory;
use mark_word::{Cell, Joined, Word, join, pieces};

impl Memory {
    /// Whether so many bytes from an address on lie in memory.
    pub(crate) fn holds(&self, address: u32, count: u32) -> bool
        ensures { result ≡ lies_in self.now address count }
    {
        let length = self.cells().len();
        let wanted = count as usize;
        let base = self.base();
        base <= address && wanted <= length && (address - base) as usize <= length - wanted
    }

    /// The byte at an address; 0 outside of memory.
    pub(crate) fn cell_at(&self, address: u64) -> Cell
        ensures { result ≡ cell_at self.now address }
    {
        let index = address.saturating_sub(u64::from(self.base())) as usize;
        let cells = self.cells();
        if index < cells.len() {
            cells[index]
        } else {
            Cell::bare(0)
        }
    }

    /// The word at an address.
    pub(crate) fn word_at(&self, address: u64) -> Joined
        requires { address + 4 < 2 ^ 64 }
        ensures { result ≡ word_at self.now address }
    {
        join([
            self.cell_at(address),
            self.cell_at(address + 1),
            self.cell_at(address + 2),
            self.cell_at(address + 3),
        ])
    }

    /// The halfword at an address.
    pub(crate) fn half_at(&self, address: u64) -> u32
        requires { address + 4 < 2 ^ 64 }
        ensures value { result ≡ half_at self.now address }
        ensures range { result < 2 ^ 16 }
    {
        u32::from(self.cell_at(address).byte()) + 256 * u32::from(self.cell_at(address + 1).byte())
    }

    /// Stores a word with its mark.
    pub(crate) fn store_word(&mut self, address: u32, w: Word)
        requires lies { lies_in self.old address 4 ≡ true }
        requires ends { self.old.base + length self.old.cells < 2 ^ 32 }
        ensures { self.new ≡ with_cells (from address (pieces w)) self.old }
    {
        let [a, b, c, d] = pieces(w);
        self.set(address, a);
        self.set(address + 1, b);
        self.set(address + 2, c);
        self.set(address + 3, d);
    }

    /// Stores a byte, which is no piece.
    pub(crate) fn store_byte(&mut self, address: u32, w: Word)
        requires lies { lies_in self.old address 1 ≡ true }
        ensures { self.new ≡ with_cells (from address (bare (byte_of 0 w.bits) ∷ [])) self.old }
    {
        self.set(address, Cell::bare((w.bits() % 256) as u8));
    }

    /// Stores a halfword, of which no byte is a piece.
    pub(crate) fn store_half(&mut self, address: u32, w: Word)
        requires lies { lies_in self.old address 2 ≡ true }
        requires ends { self.old.base + length self.old.cells < 2 ^ 32 }
        ensures { self.new ≡ with_cells (from address (bare (byte_of 0 w.bits) ∷ bare (byte_of 1 w.bits) ∷ [])) self.old }
    {
        let bits = w.bits();
        self.set(address, Cell::bare((bits % 256) as u8));
        self.set(address + 1, Cell::bare((bits / 256 % 256) as u8));
    }
}

//! Code, memory, and what an image has of each object.

ghost use Rattle.std.specs.Prelude.{◌≡◌, ◌≤◌, ◌<◌, ◌+◌, ◌-◌, length, slice_set};

use elf_model::Name;
use mark_word::{Cell, Mark};
use std::marker::Model;

/// The mark of a word, MOVW or MOVT in the code, by its address.
#[derive(Clone, Copy, Debug, PartialEq, Eq)]
pub struct PlaceMark {
    pub at: u32,
    pub mark: Mark,
}

/// A section in its place: of which object, whether it is code, its number among the sections of its
/// sort there, where it starts, and how many bytes it has.
#[derive(Clone, Copy, Debug, PartialEq, Eq)]
pub struct Part {
    pub object: u32,
    pub code: bool,
    pub ordinal: u32,
    pub start: u32,
    pub size: u32,
}

/// A name and the address of its function, with bit 0 set.
#[derive(Debug, Drop)]
pub struct NamedEntry {
    pub name: Name,
    pub address: u32,
}

/// Code that no step changes, from an address on, with its marks and its stops: where no return may
/// lead to.
#[derive(Debug, Drop)]
pub struct CodeBytes {
    base: u32,
    bytes: Vec<u8>,
    marks: Vec<PlaceMark>,
    stops: Vec<u32>,
}

impl Model for CodeBytes {
    ghost use Rattle.thumb_table.specs.Parts.{CodeBytes};

    ghost Value = { CodeBytes };

    ghost view = { λ c. record { base = c.base; bytes = c.bytes.items; marks = c.marks.items; stops = c.stops.items } };
}

impl CodeBytes {
    /// Code of these bytes.
    pub fn new(base: u32, bytes: Vec<u8>, marks: Vec<PlaceMark>, stops: Vec<u32>) -> CodeBytes
        ensures { result ≡ record { base = base; bytes = bytes.items; marks = marks.items; stops = stops.items } }
    {
        CodeBytes {
            base,
            bytes,
            marks,
            stops,
        }
    }

    /// Where it begins.
    pub fn base(&self) -> u32
        ensures { result ≡ self.now.base }
    {
        self.base
    }

    /// Its bytes.
    pub fn bytes(&self) -> &[u8]
        ensures { result.now ≡ self.now.bytes }
    {
        &self.bytes
    }

    /// Its marks, by address.
    pub fn marks(&self) -> &[PlaceMark]
        ensures { result.now ≡ self.now.marks }
    {
        &self.marks
    }

    /// Its stops, by address.
    pub fn stops(&self) -> &[u32]
        ensures { result.now ≡ self.now.stops }
    {
        &self.stops
    }
}

/// Memory from an address on.
#[derive(Debug, Drop)]
pub struct Memory {
    base: u32,
    cells: Vec<Cell>,
}

impl Model for Memory {
    ghost use Rattle.thumb_table.specs.Parts.{Memory};

    ghost Value = { Memory };

    ghost view = { λ m. record { base = m.base; cells = m.cells.items } };
}

impl Memory {
    /// Memory of these cells.
    pub fn new(base: u32, cells: Vec<Cell>) -> Memory
        ensures { result ≡ record { base = base; cells = cells.items } }
    {
        Memory { base, cells }
    }

    /// Where it begins.
    pub fn base(&self) -> u32
        ensures { result ≡ self.now.base }
    {
        self.base
    }

    /// Its cells.
    pub fn cells(&self) -> &[Cell]
        ensures { result.now ≡ self.now.cells }
    {
        &self.cells
    }

    /// Writes a byte.
    pub(crate) fn set(&mut self, address: u32, cell: Cell)
        requires starts { self.old.base ≤ address }
        requires ends { address < self.old.base + length self.old.cells }
        ensures { self.new ≡ record self.old { cells = slice_set self.old.cells (address - self.old.base) cell } }
    {
        self.cells[(address - self.base) as usize] = cell;
    }
}

/// Objects in their places. Its memory is the data.
#[derive(Debug, Drop)]
pub struct Image {
    code: CodeBytes,
    memory: Memory,
    room: u32,
    parts: Vec<Part>,
    entries: Vec<NamedEntry>,
}

impl Model for Image {
    ghost use Rattle.thumb_table.specs.Parts.{Image};

    ghost Value = { Image };

    ghost view = { λ i. record { code = i.code; memory = i.memory; room = i.room; parts = i.parts.items; entries = i.entries.items } };
}

impl Image {
    /// An image of these parts.
    pub fn new(
        code: CodeBytes,
        memory: Memory,
        room: u32,
        parts: Vec<Part>,
        entries: Vec<NamedEntry>,
    ) -> Image
        ensures { result ≡ record { code = code; memory = memory; room = room; parts = parts.items; entries = entries.items } }
    {
        Image {
            code,
            memory,
            room,
            parts,
            entries,
        }
    }

    /// The code.
    pub fn code(&self) -> &CodeBytes
        ensures { result.now ≡ self.now.code }
    {
        &self.code
    }

    /// The data.
    pub fn memory(&self) -> &Memory
        ensures { result.now ≡ self.now.memory }
    {
        &self.memory
    }

    /// How many bytes the code may have.
    pub fn room(&self) -> u32
        ensures { result ≡ self.now.room }
    {
        self.room
    }

    /// The sections in memory, code first.
    pub fn parts(&self) -> &[Part]
        ensures { result.now ≡ self.now.parts }
    {
        &self.parts
    }

    /// The functions that can be called by name.
    pub fn entries(&self) -> &[NamedEntry]
        ensures { result.now ≡ self.now.entries }
    {
        &self.entries
    }
}

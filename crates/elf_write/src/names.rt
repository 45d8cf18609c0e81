//! String tables, filled name by name.

ghost use Rattle.std.specs.Prelude.{◌≡◌, ◌++◌, ℕ, List, [], ◌∷◌, IfOk, OnOk};
ghost use Rattle.elf_model.specs.Canonical.{name_offset, string_table};
ghost use Rattle.elf_write.specs.Writing.{IsTable};

use indexmap::IndexMap;
use std::alloc::{AllocError, Global};

/// A string table, and the offset of each different name that it holds.
#[derive(Drop)]
pub(crate) struct Names {
    text: Vec<u8>,
    places: IndexMap<Vec<u8>, usize>,
}

impl Names {
    /// The table of no names.
    pub(crate) fn new(alloc: Global) -> Result<Names, AllocError>
        ensures { IfOk result (λ t. IsTable t []) }
    {
        Ok(Names {
            text: vec![in alloc; 0]?,
            places: IndexMap::new(alloc),
        })
    }

    /// Adds a name where it isn't there yet, and gives its offset.
    pub(crate) fn add(&mut self, alloc: Global, name: &[u8]) -> Result<usize, AllocError>
        ensures table { (names : List (List ℕ)) → IsTable self.old names → OnOk result (IsTable self.new (names ++ name.now ∷ [])) }
        ensures offset { (names : List (List ℕ)) → IsTable self.old names → IfOk result (λ at. at ≡ name_offset (names ++ name.now ∷ []) name.now) }
    {
        if name.is_empty() {
            return Ok(0);
        }
        if let Some(at) = self.places.get(name) {
            return Ok(*at);
        }
        let at = self.text.len();
        self.places.insert(Vec::from_slice(alloc, name)?, at)?;
        self.text.extend_from_slice(name)?;
        self.text.push(0)?;
        Ok(at)
    }

    /// The table's bytes.
    pub(crate) fn text(&self) -> &[u8]
        ensures { (names : List (List ℕ)) → IsTable self.now names → result.now ≡ string_table names }
    {
        &self.text
    }
}

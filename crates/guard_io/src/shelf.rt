//! Named files.

ghost use Rattle.std.specs.Prelude.{◌≡◌, ◌≢◌, ◌≤◌, ℕ, Bool, true, List, Option, Some, IfOk, OnOk, IsTrue, IsSome, vec_len};
ghost use Rattle.guard_io.specs.Outside.{Rose, IsLoaded, SameFiles, SameOthers, IsPartlySaved};

use crate::{LoadErr, SaveErr};
use std::alloc::Global;

/// Files by name. A shelf may tell what its files hold, and counts what fails outside the program. A
/// count of faults never falls, and stands still at 2^64 - 1. One that tells its files may be steady:
/// then it stays so, and no call fails but a load of a file that isn't there.
pub trait Shelf {
    /// Whether it tells its files.
    ghost tells: { Self → Bool };

    /// What the file of a name holds, where the files are told; `None` where there is no such file.
    ghost file: { Self → List ℕ → Option (List ℕ) };

    /// Whether it tells its files and nothing fails.
    ghost steady: { Self → Bool };

    /// How often a load has failed.
    ghost load_faults: { Self → ℕ };

    /// How often a save has failed.
    ghost save_faults: { Self → ℕ };

    /// The first `most` bytes of a file, or all of them if it is shorter. A name that isn't there is a
    /// fault. No file is changed.
    fn load(&mut self, alloc: Global, name: &str, most: usize) -> Result<Vec<u8>, LoadErr>
        ensures most { IfOk result (λ bytes. vec_len bytes ≤ most) }
        ensures bytes { IfOk result (λ bytes. IsTrue (tells self.old) → IsLoaded (file self.old name.now) most bytes.items) }
        ensures files { SameFiles tells file self.old self.new }
        ensures count { load_faults self.old ≤ load_faults self.new }
        ensures saves { save_faults self.new ≡ save_faults self.old }
        ensures failed { result ≡ Err LoadErr.Failed → Rose (load_faults self.old) (load_faults self.new) }
        ensures memory { result ≡ Err LoadErr.Memory → load_faults self.new ≡ load_faults self.old }

        // A steady shelf stays steady, and fails only for want of the file.
        ensures steady { IsTrue (steady self.old) → IsTrue (steady self.new) }
        ensures present { IsTrue (steady self.old) → IsSome (file self.old name.now) → result ≢ Err LoadErr.Failed }
        ensures calm { IsTrue (steady self.old) → IsSome (file self.old name.now) → load_faults self.new ≡ load_faults self.old };

    /// Makes the bytes the content of a file. Every other file stays.
    fn save(&mut self, name: &str, bytes: &[u8]) -> Result<(), SaveErr>
        ensures saved { OnOk result (IsTrue (tells self.old) → file self.new name.now ≡ Some bytes.now) }
        ensures others { SameOthers tells file name.now self.old self.new }
        ensures part { result ≡ Err SaveErr.Failed → IsTrue (tells self.old) → IsPartlySaved (file self.old name.now) bytes.now (file self.new name.now) }
        ensures count { save_faults self.old ≤ save_faults self.new }
        ensures loads { load_faults self.new ≡ load_faults self.old }
        ensures failed { result ≡ Err SaveErr.Failed → Rose (save_faults self.old) (save_faults self.new) }
        ensures memory { result ≡ Err SaveErr.Memory → SameFiles tells file self.old self.new }
        ensures memory_count { result ≡ Err SaveErr.Memory → save_faults self.new ≡ save_faults self.old }

        // A steady shelf stays steady, and does not fail.
        ensures steady { IsTrue (steady self.old) → IsTrue (steady self.new) }
        ensures calm { IsTrue (steady self.old) → result ≢ Err SaveErr.Failed }
        ensures calm_count { IsTrue (steady self.old) → save_faults self.new ≡ save_faults self.old };

    // A steady shelf tells its files.
    ghost steady_tells: { (shelf : Self) → IsTrue (steady shelf) → IsTrue (tells shelf) };
}

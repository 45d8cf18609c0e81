//! A stream of bytes out of the program.

ghost use Rattle.std.specs.Prelude.{◌≡◌, ◌≢◌, ◌≤◌, ◌++◌, ℕ, Bool, List, OnOk, IsTrue};
ghost use Rattle.guard_io.specs.Outside.{Rose, IsPartlyPut};

use crate::PutErr;

/// Output. A sink may tell what was put, and counts what fails outside the program, and how often
/// memory was wanting. No count ever falls, and each stands still at 2^64 - 1. One that tells its bytes
/// may be steady: then it stays so, and no call fails, though memory may be wanting.
pub trait Sink {
    /// Whether it tells its bytes.
    ghost tells: { Self → Bool };

    /// What was put, where it is told.
    ghost written: { Self → List ℕ };

    /// Whether it tells its bytes and nothing fails.
    ghost steady: { Self → Bool };

    /// How often a call has failed.
    ghost faults: { Self → ℕ };

    /// How often a call has had no memory.
    ghost wants: { Self → ℕ };

    /// Appends the bytes.
    fn put(&mut self, bytes: &[u8]) -> Result<(), PutErr>
        ensures told { tells self.new ≡ tells self.old }
        ensures put { OnOk result (IsTrue (tells self.old) → written self.new ≡ written self.old ++ bytes.now) }
        ensures part { result ≡ Err PutErr.Failed → IsTrue (tells self.old) → IsPartlyPut (written self.old) bytes.now (written self.new) }
        ensures count { faults self.old ≤ faults self.new }
        ensures failed { result ≡ Err PutErr.Failed → Rose (faults self.old) (faults self.new) }
        ensures memory { result ≡ Err PutErr.Memory → IsTrue (tells self.old) → written self.new ≡ written self.old }
        ensures memory_count { result ≡ Err PutErr.Memory → faults self.new ≡ faults self.old }

        // Memory is wanting exactly where that is counted.
        ensures wants_count { wants self.old ≤ wants self.new }
        ensures wanted { result ≡ Err PutErr.Memory → Rose (wants self.old) (wants self.new) }
        ensures not_wanted { result ≢ Err PutErr.Memory → wants self.new ≡ wants self.old }

        // A steady sink stays steady, and does not fail.
        ensures steady { IsTrue (steady self.old) → IsTrue (steady self.new) }
        ensures calm { IsTrue (steady self.old) → result ≢ Err PutErr.Failed }
        ensures calm_count { IsTrue (steady self.old) → faults self.new ≡ faults self.old };

    // A steady sink tells its bytes.
    ghost steady_tells: { (sink : Self) → IsTrue (steady sink) → IsTrue (tells sink) };
}

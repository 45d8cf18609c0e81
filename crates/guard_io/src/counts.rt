//! Counts that rise, and the list of the calls that are made to fail.

ghost use Rattle.std.specs.Prelude.{◌≡◌, ◌≤◌};
ghost use Rattle.guard_io.specs.Memory.{raised, is_listed};

/// One more, until the count stands at its last value.
pub(crate) fn raise(count: u64) -> u64
    ensures value { result ≡ raised count }
    ensures grows { count ≤ result }
{
    count.saturating_add(1)
}

/// Whether the call of this number is made to fail.
pub(crate) fn is_made_to_fail(fail: &[u64], call: u64) -> bool
    ensures { result ≡ is_listed fail.now call }
{
    fail.contains(&call)
}

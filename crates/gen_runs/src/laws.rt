//! Laws of the generated object's run. The function does nothing: its contract is the law.

ghost use Rattle.gen_runs.specs.GeneratedRuns.{GeneratedCallsReturn};

/// The call of the first function of a generated object returns after as many ordinary steps as its functions have
/// instructions.
pub fn generated_calls_return()
    ensures { GeneratedCallsReturn }
{}

//! How a command ends.

ghost use Rattle.std.specs.Prelude.{◌≡◌};

use elf_model::Spot;
use skip_machine::Outcome;

/// What came of a command.
#[derive(Clone, Copy, Debug, PartialEq, Eq)]
pub enum Ending {
    /// All outputs are saved and the report is printed.
    Done,
    /// An input is refused. Nothing was saved.
    Refused(Spot),
    /// The words are no command.
    Usage,
    /// A file could not be read. Nothing was saved.
    ReadFault,
    /// A file could not be written.
    WriteFault,
    /// All outputs are saved, and the report could not be printed.
    PrintFault,
    /// Memory ran out.
    NoMemory,
    /// A run faulted or used its steps.
    Stopped(Outcome),
}

impl Ending {
    ghost use Rattle.guard_cli.specs.Statuses.{status_of};

    /// The exit status that tells of it.
    pub fn status(&self) -> u8
        ensures { result ≡ status_of self.now }
    {
        match self {
            Ending::Done => 0,
            Ending::Refused(_) => 1,
            Ending::Usage => 2,
            Ending::ReadFault | Ending::WriteFault | Ending::PrintFault => 3,
            Ending::NoMemory => 4,
            Ending::Stopped(_) => 5,
        }
    }
}

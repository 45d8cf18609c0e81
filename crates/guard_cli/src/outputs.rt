//! A file that is to be saved.

ghost use Rattle.std.specs.Prelude.{◌≡◌, string_bytes};
ghost use Rattle.guard_cli.specs.Texts.{write_fault_line};

/// A file that is to be saved, with the line that is said where it can't be. So no memory is wanting
/// for that line when a save has failed.
#[derive(Debug, Drop)]
pub(crate) struct Output {
    pub name: String,
    pub bytes: Vec<u8>,
    pub fault: String,
    ghost says: { string_bytes fault ≡ write_fault_line (string_bytes name) },
}

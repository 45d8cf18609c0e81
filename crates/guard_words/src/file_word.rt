//! The file word of `list`.

ghost use Rattle.std.specs.Prelude.{◌≡◌, ℕ, List, Some, IfOk, IfErr, map, option_map, string_bytes};
ghost use Rattle.clap.specs.Words.{kind_of};
ghost use Rattle.clap.specs.declared.error.kind.ErrorKind.TheVariants.{OutOfMemory};
ghost use Rattle.guard_words.specs.Words.{IsList};

use clap::{Arg, ArgAction, Command, Error};
use std::alloc::Global;

/// The file that `list` with these words names. The first word is the command.
pub(crate) fn file_word<'a>(alloc: Global, words: &'a [String]) -> Result<Option<&'a str>, Error>
    ensures file { IfOk result (λ file. (input : List ℕ) → IsList (map string_bytes words.entry.now) input → option_map (λ f. f.now) file ≡ Some input) }
    ensures failed { IfErr result (λ e. (input : List ℕ) → IsList (map string_bytes words.entry.now) input → kind_of e ≡ OutOfMemory) }
{
    let file = Arg::new(alloc, "file")
        .required(true)
        .action(ArgAction::Set);
    let command = Command::new(alloc, "list").arg(file)?;
    match command.try_get_matches_from(words) {
        Ok(matches) => Ok(matches.get_str("file")),
        Err(e) => Err(e),
    }
}

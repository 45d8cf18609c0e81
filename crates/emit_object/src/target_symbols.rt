//! The functions of targets that get a symbol of their own.

ghost use Rattle.std.specs.Prelude.{◌≡◌, ◌+◌, ◌<◌, ◌^◌, IfOk, string_bytes};
ghost use Rattle.emit_object.specs.TargetPlaces.{target_at};
ghost use Rattle.emit_object.specs.TargetSymbols.{target_name, function_at as function_of};

use elf_model::numbers::{FUNC, LOCAL};
use elf_model::{Home, Name, Symbol};
use std::alloc::{AllocError, Global};

/// The name of a target's function.
fn target_text(alloc: Global, ordinal: u32, old: u32) -> Result<String, AllocError>
    ensures { IfOk result (λ text. string_bytes text ≡ target_name ordinal old) }
{
    format!(in alloc; "skip.{ordinal}.{old}")
}

/// The function of a target, which stands in the code section of this number at a new offset.
pub(crate) fn function_at(
    alloc: Global,
    ordinal: u32,
    target: (u32, u32),
    new: u32,
) -> Result<Symbol, AllocError>
    requires { new + 1 < 2 ^ 32 }
    ensures { IfOk result (λ s. s ≡ function_of ordinal (target_at target) new) }
{
    let text = target_text(alloc, ordinal, target.1)?;
    Ok(Symbol {
        name: Name::new(text.into_bytes()),
        value: new + 1,
        size: 0,
        bind: LOCAL,
        kind: FUNC,
        other: 0,
        home: Home::Section(target.0),
    })
}

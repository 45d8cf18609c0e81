//! What `link` makes of inputs.

ghost use Rattle.std.specs.Prelude.{◌≡◌, ◌≤◌, ◌^◌, [], length, map, All, IfOk, IfErr, IsTrue};
ghost use Rattle.elf_model.specs.Objects.{is_code, is_within};
ghost use Rattle.thumb_table.specs.Layouts.{IsPlacement};
ghost use Rattle.thumb_table.specs.Images.{is_data};
ghost use Rattle.guard_words.specs.Tasks.{link_words};
ghost use Rattle.guard_cli.specs.Inputs.{IsTurnedDown};
ghost use Rattle.guard_cli.specs.LinkWork.{bytes_of, bytes_of_all, IsLinkInputRefusal, link_work};
ghost use Rattle.guard_cli.specs.Steps.{contents_of, IsMadeBy};

use crate::loading::objects_of;
use crate::tasks::{Made, saving};
use crate::texts::link_text;
use elf_model::{Deny, Limit, Object, Section, is_code, is_data};
use flat_link::link;
use guard_words::LinkCommand;
use std::alloc::Global;

/// The file of the inputs' image and the report on it, or why there is none.
pub(crate) fn decide(
    alloc: Global,
    command: &LinkCommand<'_>,
    files: &[Vec<u8>],
) -> Result<Made, Deny>
    requires placement { IsPlacement command.now.at }
    requires few { length files.now ≤ 16 }
    ensures made { IfOk result (IsMadeBy (link_work (link_words command.now)) (contents_of files.now)) }
    ensures refused { IfErr result (IsTurnedDown (IsLinkInputRefusal command.now.at (contents_of files.now))) }
{
    let objects = objects_of(alloc, files)?;
    let sizes = sizes_of(&objects);
    let report = link_text(alloc, sizes.code, sizes.memory)?;
    let image = link(alloc, &objects, &command.at)?;
    let file = image.bytes(alloc)?;
    Ok(saving(alloc, command.output, file, report)?)
}

/// How many bytes the sections of code have, and those of data in memory.
#[derive(Clone, Copy, Debug)]
struct Sizes {
    code: u64,
    memory: u64,
}

/// The sizes of objects.
fn sizes_of(objects: &[Object]) -> Sizes
    requires few { length objects.now ≤ 16 }
    requires within { All (λ o. IsTrue (is_within o Limit.ANY)) objects.now }
    ensures code { result.code ≡ bytes_of_all is_code objects.now }
    ensures memory { result.memory ≡ bytes_of_all is_data objects.now }
{
    let mut code = 0;
    let mut memory = 0;
    for object in objects {
        code += code_bytes_of(object.sections());
        memory += data_bytes_of(object.sections());
    }
    Sizes { code, memory }
}

/// How many bytes the sections of code have.
pub(crate) fn code_bytes_of(sections: &[Section]) -> u64
    requires { length sections.now ≤ 1024 }
    ensures sum { result ≡ bytes_of is_code sections.now }
    ensures small { result ≤ 2 ^ 42 }
{
    let mut sum = 0;
    for section in sections {
        if is_code(section) {
            sum += section.size as u64;
        }
    }
    sum
}

/// How many bytes the sections of data in memory have.
fn data_bytes_of(sections: &[Section]) -> u64
    requires { length sections.now ≤ 1024 }
    ensures sum { result ≡ bytes_of is_data sections.now }
    ensures small { result ≤ 2 ^ 42 }
{
    let mut sum = 0;
    for section in sections {
        if is_data(section) {
            sum += section.size as u64;
        }
    }
    sum
}

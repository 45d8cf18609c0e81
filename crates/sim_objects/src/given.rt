//! What the types of objects tell of them.

ghost use Rattle.std.specs.Prelude.{◌≡◌, ◌<◌, ◌^◌, ℕ, Some, slice_get};
ghost use Rattle.elf_model.specs.declared.objects.Section.{Section as SectionParts};
ghost use Rattle.elf_model.specs.Fields.{byte_at};
ghost use Rattle.flat_link.specs.Existing.{HaveBytes};
ghost use Rattle.sim_images.specs.ImageLaws.{AreObjects};

use elf_model::{Object, Section};

/// Each of them is below 256.
fn are_small(bytes: &[u8])
    ensures { (x : ℕ) → byte_at bytes.now x < 2 ^ 8 }
{}

/// Bytes of sections are bytes.
fn sections_have_bytes(sections: &[Section])
    ensures { (j : ℕ) (s : SectionParts) → slice_get sections.now j ≡ Some s → (x : ℕ) → byte_at s.bytes x < 2 ^ 8 }
{
    for s in sections {
        are_small(s.bytes.as_slice());
    }
}

/// Bytes of objects are bytes.
pub(crate) fn have_bytes(objects: &[Object])
    ensures { HaveBytes objects.now }
{
    for o in objects {
        sections_have_bytes(o.sections());
    }
}

/// Each is an object.
pub(crate) fn are_objects(objects: &[Object])
    ensures { AreObjects objects.now }
{
    for o in objects {
        o.sound();
    }
}

//! The test of what `write_object` requires.

ghost use Rattle.std.specs.Prelude.{◌≡◌, ◌^◌, nat_lt, length};
ghost use Rattle.std.specs.List.{sum_by};

use elf_model::Section;

/// Whether the sections have fewer than 2^30 bytes.
pub(crate) fn fits_bytes(sections: &[Section]) -> bool
    ensures { result ≡ nat_lt (sum_by (λ s. length s.bytes) sections.now) (2 ^ 30) }
{
    let mut room: usize = 0x3FFF_FFFF;
    for s in sections {
        let size = s.bytes.as_slice().len();
        if room < size {
            return false;
        }
        room -= size;
    }
    true
}

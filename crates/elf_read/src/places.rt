//! Places of faults in a file.

ghost use Rattle.std.specs.Prelude.{◌≡◌};
ghost use Rattle.elf_read.specs.Places.{lower_of};

/// The number of a section header, and the offset of a field in the file.
#[derive(Clone, Copy, Debug, PartialEq, Eq)]
pub(crate) struct Place {
    pub(crate) section: u32,
    pub(crate) offset: u32,
}

/// The lower one of two places.
pub(crate) fn lower(a: Option<Place>, b: Option<Place>) -> Option<Place>
    ensures { result ≡ lower_of a b }
{
    let (Some(p), Some(q)) = (a, b) else {
        return a.or(b);
    };
    if q.section < p.section || q.section == p.section && q.offset < p.offset {
        Some(q)
    } else {
        Some(p)
    }
}

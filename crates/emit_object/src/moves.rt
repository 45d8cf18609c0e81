//! Where what stood at old offsets stands now.

ghost use Rattle.std.specs.Prelude.{◌≡◌, ℕ, List, Some};
ghost use Rattle.flow_recover.specs.Points.{PointsRise};
ghost use Rattle.hardened_form.specs.Items.{Item, AreItems};
ghost use Rattle.hardened_form.specs.Standing.{old_points, old_words, new_place as place_among};
ghost use Rattle.branch_layout.specs.Laid.{laid_places as places_of};
ghost use Rattle.emit_object.specs.Laid.{Matches, BeginsAt};

use flow_recover::{Flow, point_at};
use seq_core::Layout;

/// Where the unit of the point at an offset of a section begins, if a point stands there.
pub(crate) fn new_place(f: &Flow, l: &Layout, section: u32, offset: u32) -> Option<u32>
    requires points { PointsRise f.now }
    requires matches { Matches f.now l.now }
    ensures place { (items : List Item) → AreItems (old_points f.now) (old_words f.now) (places_of l.now) items → result ≡ place_among items section offset }
    ensures laid { (at : ℕ) → result ≡ Some at → BeginsAt l.now.units at }
{
    match point_at(f, section, offset) {
        Some(q) => match l.units().get(q as usize) {
            Some(u) => Some(u.start()),
            None => None,
        },
        None => None,
    }
}

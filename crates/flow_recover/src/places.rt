//! The search of a point by its place.

ghost use Rattle.std.specs.Prelude.{◌≡◌, ◌↔◌, ℕ, Some};
ghost use Rattle.flow_recover.specs.Points.{IsPointAt, PointsRise};

use crate::Flow;

/// The index of the point at an offset of a section, if one stands there.
pub fn point_at(f: &Flow, section: u32, offset: u32) -> Option<u32>
    requires { PointsRise f.now }
    ensures { (q : ℕ) → (result ≡ Some q) ↔ IsPointAt f.now section offset q }
{
    let place = (section, offset);
    match f
        .points()
        .binary_search_by_key(&place, |p| (p.section, p.offset))
    {
        Ok(q) => Some(q as u32),
        Err(_) => None,
    }
}

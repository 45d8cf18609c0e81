//! The index of a node or a place in a list that rises.

ghost use Rattle.std.specs.Prelude.{◌≡◌, ◌↔◌, ◌<◌, ◌^◌, ℕ, Some, length, slice_get};
ghost use Rattle.std.specs.List.Sorted.{IsStrictlySortedBy};
ghost use Rattle.code_ranges.specs.Spans.{place_cmp};
ghost use Rattle.flow_recover.specs.Charts.{node_cmp};

use crate::nodes::Node;

/// The index of a node, if it is in the list.
pub(crate) fn node_index(nodes: &[Node], n: Node) -> Option<u32>
    requires few { length nodes.now < 2 ^ 32 }
    requires order { IsStrictlySortedBy node_cmp nodes.now }
    ensures { (q : ℕ) → (result ≡ Some q) ↔ (slice_get nodes.now q ≡ Some n) }
{
    match nodes.binary_search(&n) {
        Ok(q) => Some(q as u32),
        Err(_) => None,
    }
}

/// The index of a place, if it is in the list.
pub(crate) fn place_index(places: &[(u32, u32)], place: (u32, u32)) -> Option<u32>
    requires few { length places.now < 2 ^ 32 }
    requires order { IsStrictlySortedBy place_cmp places.now }
    ensures { (q : ℕ) → (result ≡ Some q) ↔ (slice_get places.now q ≡ Some place) }
{
    match places.binary_search(&place) {
        Ok(q) => Some(q as u32),
        Err(_) => None,
    }
}

//! Laws of flows. The functions do nothing: their contracts are the laws.

ghost use Rattle.std.specs.Prelude.{◌≡◌, ℕ, Some, None, false, slice_get, Contains, IsTrue};
ghost use Rattle.elf_model.specs.Objects.{ObjectParts, is_within};
ghost use Rattle.elf_model.specs.declared.refusals.Deny.TheVariants.{Refused};
ghost use Rattle.elf_model.specs.declared.refusals.Spot.{Spot};
ghost use Rattle.flow_recover.specs.Flows.{FlowParts};
ghost use Rattle.flow_recover.specs.FlowFaults.{IsFlowDenial};
ghost use Rattle.flow_recover.specs.WholeFlows.{IsEntry, IsFlow};
ghost use Rattle.flow_recover.specs.declared.aims.Aim.TheVariants.{Near};
ghost use Rattle.flow_recover.specs.declared.flows.Exit.TheVariants.{Branch, Call};
ghost use Rattle.flow_recover.specs.declared.flows.Point.{Point};
ghost use Rattle.reloc_places.specs.Relocations.{may_fail};
ghost use Rattle.flow_recover.specs.Aims.{IsAim};
ghost use Rattle.flow_recover.specs.Reach.{IsDeadEnd};
ghost use Rattle.flow_recover.specs.Points.{IsPointAt, end_of, PointsRise, StopsBehindNops};

use elf_model::Limit;

/// An object has one flow at most, or is refused one for one reason.
pub fn objects_have_one_flow()
    ensures one { (o : ObjectParts) (f g : FlowParts) → IsFlow o f → IsFlow o g → f ≡ g }
    ensures refused { (o : ObjectParts) (s t : Spot) → IsFlowDenial o (Refused s) → IsFlowDenial o (Refused t) → s ≡ t }
    ensures apart { (o : ObjectParts) (f : FlowParts) (s : Spot) → IsFlow o f → ¬ IsFlowDenial o (Refused s) }
{}

/// The points of a flow rise by their places and can be searched, and no two instructions of a section,
/// and so no two calls, end at one offset.
pub fn points_stand_apart()
    ensures rise { (o : ObjectParts) (f : FlowParts) → IsTrue (is_within o Limit.ANY) → IsFlow o f → PointsRise f }
    ensures ends { (o : ObjectParts) (f : FlowParts) (p q : ℕ) (x y : Point) → IsFlow o f → slice_get f.points p ≡ Some x → slice_get f.points q ≡ Some y → x.section ≡ y.section → end_of x ≡ end_of y → p ≡ q }
{}

/// The point that another goes on to stands where that one ends, the point that a branch leads to at its
/// target, and the points that control enters at are those of the entries.
pub fn points_stand_where_control_comes()
    ensures next { (o : ObjectParts) (f : FlowParts) (p q : ℕ) (x : Point) → IsFlow o f → slice_get f.points p ≡ Some x → x.next ≡ Some q → IsPointAt f x.section (end_of x) q }
    ensures target { (o : ObjectParts) (f : FlowParts) (p q : ℕ) (x : Point) → IsFlow o f → slice_get f.points p ≡ Some x → x.exit ≡ Branch q → (t : ℕ) × IsAim o x.section x.offset x.instr (Near t) × IsPointAt f x.section t q }
    ensures entry { (o : ObjectParts) (f : FlowParts) (j x : ℕ) → IsFlow o f → IsEntry o j x → (q : ℕ) × Contains f.entries q × IsPointAt f j x q }
    ensures entered { (o : ObjectParts) (f : FlowParts) (q : ℕ) → IsFlow o f → Contains f.entries q → (j x : ℕ) × (IsEntry o j x × IsPointAt f j x q) }
{}

/// A call without a next point is always made, and behind it is a dead end: nothing but NOPs stands there
/// up to a function, to data, or to the end of the section.
pub fn calls_without_next_are_dead_ends()
    ensures made { (o : ObjectParts) (f : FlowParts) (p : ℕ) (x : Point) → IsFlow o f → slice_get f.points p ≡ Some x → x.exit ≡ Call → x.next ≡ None → may_fail x.cond ≡ false }
    ensures dead { (o : ObjectParts) (f : FlowParts) (p : ℕ) (x : Point) → IsFlow o f → slice_get f.points p ≡ Some x → x.exit ≡ Call → x.next ≡ None → IsDeadEnd o x.section (end_of x) }
    ensures stops { (o : ObjectParts) (f : FlowParts) (p : ℕ) (x : Point) → IsFlow o f → slice_get f.points p ≡ Some x → x.exit ≡ Call → x.next ≡ None → StopsBehindNops o x.section (end_of x) }
{}

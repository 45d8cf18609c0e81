//! Laws of recovered flows. The functions do nothing: their contracts are the laws.

ghost use Rattle.std.specs.Prelude.{◌≡◌, ℕ, true, Some, slice_get, Contains, IsTrue};
ghost use Rattle.elf_model.specs.declared.refusals.Deny.TheVariants.{Refused};
ghost use Rattle.elf_model.specs.declared.refusals.Spot.{Spot};
ghost use Rattle.elf_model.specs.Objects.{ObjectParts, is_within};
ghost use Rattle.flow_recover.specs.declared.flows.Exit.TheVariants.{Call};
ghost use Rattle.flow_recover.specs.declared.flows.Point.{Point};
ghost use Rattle.flow_recover.specs.Flows.{FlowParts};
ghost use Rattle.flow_recover.specs.WholeFlows.{IsFlow};
ghost use Rattle.liveness.specs.declared.boundary.Boundary.{Boundary};
ghost use Rattle.liveness.specs.Faults.{is_unset_at_entry, is_lost_in_call, AreLive, IsLiveDenial};
ghost use Rattle.liveness.specs.Paths.{IsLiveBefore, NamesPoints};
ghost use Rattle.liveness.specs.Sets.{LiveParts};

use elf_model::Limit;

/// Each flow that `recover` gives can be asked about.
pub fn recovered_flows_name_points()
    ensures { (o : ObjectParts) (f : FlowParts) → IsTrue (is_within o Limit.ANY) → IsFlow o f → NamesPoints f }
{}

/// A flow has one list of sets at most, and a recovered one is refused for one reason.
pub fn points_have_one_live_set()
    ensures one { (f : FlowParts) (b : Boundary) (l m : LiveParts) → AreLive f b l → AreLive f b m → l.sets ≡ m.sets }
    ensures refused { (o : ObjectParts) (f : FlowParts) (b : Boundary) (s t : Spot) → IsFlow o f → IsLiveDenial f b (Refused s) → IsLiveDenial f b (Refused t) → s ≡ t }
    ensures apart { (f : FlowParts) (b : Boundary) (l : LiveParts) (s : Spot) → AreLive f b l → ¬ IsLiveDenial f b (Refused s) }
{}

/// Of a flow that is not refused nothing is live where it has no value: at an entry neither r12 nor a flag,
/// and where a call returns to none of r12, lr and the flags.
pub fn unset_members_are_dead()
    ensures entry { (f : FlowParts) (b : Boundary) (l : LiveParts) (p k : ℕ) → NamesPoints f → AreLive f b l → Contains f.entries p → is_unset_at_entry k ≡ true → ¬ IsLiveBefore f b k p }
    ensures call { (f : FlowParts) (b : Boundary) (l : LiveParts) (p q k : ℕ) (x : Point) → AreLive f b l → slice_get f.points p ≡ Some x → x.exit ≡ Call → x.next ≡ Some q → is_lost_in_call k ≡ true → ¬ IsLiveBefore f b k q }
{}

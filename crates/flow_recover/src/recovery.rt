//! From an object to the flow of its code.

ghost use Rattle.std.specs.Prelude.{◌≡◌, ◌↔◌, ◌<◌, ◌^◌, true, length, IfOk, IfErr, IsTrue};
ghost use Rattle.std.specs.BTreeSet.{contains};
ghost use Rattle.elf_model.specs.Objects.{is_within};
ghost use Rattle.code_ranges.specs.CodeRanges.{AreRanges};
ghost use Rattle.code_ranges.specs.Spans.{place_cmp};
ghost use Rattle.flow_recover.specs.FlowFaults.{IsFlowDenial};
ghost use Rattle.flow_recover.specs.WholeFlows.{IsFlow};
ghost use Rattle.flow_recover.specs.Charts.{IsChart, AreNodes};
ghost use Rattle.flow_recover.specs.Visits.{AreVisits, AreInOrder};
ghost use Rattle.flow_recover.specs.Claims.{AreClaims};
ghost use Rattle.flow_recover.specs.Settled.{IsFaultless, IsAmong, AreEntries};

use crate::charts::{Chart, chart_of};
use crate::claims::{all_claims, entry_places};
use crate::flow_faults::flow_spots;
use crate::literals::{word_places, words_at};
use crate::named::{Claim, named_places};
use crate::nodes::Node;
use crate::points::points_of;
use crate::reach::reached_nodes;
use crate::visits::{Visit, visits_of};
use crate::{Flow, Range, code_ranges, first_of};
use elf_model::{Deny, Limit, Object};
use std::alloc::{AllocError, Global};
use std::collections::BTreeSet;

/// Whether a node is one of these places with a clear IT state.
fn is_entered(places: &BTreeSet<(u32, u32)>, n: Node) -> bool
    ensures { (result ≡ true) ↔ IsAmong (λ j x. contains place_cmp places.now (j, x)) n }
{
    n.it == 0 && places.contains(&(n.section, n.offset))
}

/// The indexes of the nodes at which control enters.
fn entries_of(
    alloc: Global,
    places: &BTreeSet<(u32, u32)>,
    nodes: &[Node],
) -> Result<Vec<u32>, AllocError>
    requires { length nodes.now < 2 ^ 32 }
    ensures { IfOk result (λ entries. AreEntries (λ j x. contains place_cmp places.now (j, x)) nodes.now entries.items) }
{
    let mut entries = Vec::new(alloc);
    for (q, n) in nodes.iter().enumerate() {
        if is_entered(places, *n) {
            entries.push(q as u32)?;
        }
    }
    Ok(entries)
}

/// The flow of an object without faults.
fn flow_of(
    alloc: Global,
    o: &Object,
    ranges: Vec<Range>,
    chart: &Chart,
    claims: &[Claim],
    nodes: &[Node],
    visits: &[Visit],
) -> Result<Flow, AllocError>
    requires within { IsTrue (is_within o.now Limit.ANY) }
    requires ranges { AreRanges o.now ranges.items }
    requires chart { IsChart o.now chart.now }
    requires claims { AreClaims o.now claims.now }
    requires nodes { AreNodes o.now nodes.now }
    requires visits { AreVisits o.now visits.now }
    requires order { AreInOrder o.now nodes.now visits.now }
    requires faultless { IsFaultless o.now }
    ensures { IfOk result (λ f. IsFlow o.now f) }
{
    o.sound();
    let places = word_places(alloc, o, visits)?;
    let words = words_at(alloc, chart, &places)?;
    let points = points_of(alloc, o, chart, nodes, visits, &places)?;
    let entered = entry_places(alloc, o, claims)?;
    let entries = entries_of(alloc, &entered, nodes)?;
    Ok(Flow::new(points, words, entries, ranges))
}

/// The flow of an object's code: its reachable instructions with their edges and exits, the words that
/// they load, and the points at which control enters. Refuses what `code_ranges` refuses, and else the
/// first of these by section, offset and number: halfwords at a reachable start that are no instruction
/// of the profile (`Unknown` to `PcOperand`), or an ADR, there; a relocation of a kind or on a place that
/// is not handled (`RelocKind`), at its place; control that is sent to where no instruction starts, or
/// into an IT block, an address of code without bit 0, and a literal that is no word of data
/// (`IntoMiddle`), at the symbol, the relocation or the instruction that does so; and control that goes
/// on to where no code is, or an IT block that its range cuts (`FallsOff`), at the instruction. The
/// file is 0.
pub fn recover(alloc: Global, o: &Object) -> Result<Flow, Deny>
    requires { IsTrue (is_within o.now Limit.ANY) }
    ensures flow { IfOk result (λ f. IsFlow o.now f) }
    ensures refused { IfErr result (λ why. IsFlowDenial o.now why) }
{
    let ranges = code_ranges(alloc, o)?;
    let chart = chart_of(alloc, o, &ranges)?;
    let named = named_places(alloc, o, &chart)?;
    let nodes = reached_nodes(alloc, o, &chart, &named)?;
    let mut bad = Vec::new(alloc);
    let visits = visits_of(alloc, o, &chart, &nodes, &mut bad)?;
    let claims = all_claims(alloc, o, &named, &visits)?;
    let spots = flow_spots(alloc, o, &chart, &claims, &visits, bad)?;
    match first_of(&spots) {
        Some(spot) => Err(Deny::Refused(spot)),
        None => Ok(flow_of(alloc, o, ranges, &chart, &claims, &nodes, &visits)?),
    }
}

//! What is known of the instructions that control reaches: found out once for each.

ghost use Rattle.std.specs.Prelude.{◌≡◌, Ok, IfOk, OnOk, IsTrue};
ghost use Rattle.elf_model.specs.Objects.{is_within};
ghost use Rattle.reloc_places.specs.Starts.{HasStart};
ghost use Rattle.flow_recover.specs.FlowFaults.{refusal_of as refusal_of_bad};
ghost use Rattle.flow_recover.specs.Reach.{IsFound};
ghost use Rattle.flow_recover.specs.Gains.{Gains};
ghost use Rattle.flow_recover.specs.Charts.{IsChart, AreNodes};
ghost use Rattle.flow_recover.specs.NodeFaults.{IsReachedBad};
ghost use Rattle.flow_recover.specs.Visits.{IsVisitAt, Notes, AreVisits, AreInOrder};

use crate::aims::{Aim, aim_of};
use crate::charts::Chart;
use crate::edges::goes_on;
use crate::instructions::{behind, found};
use crate::nodes::Node;
use code_ranges::spot_of;
use elf_model::{Limit, Object, Refusal, Spot};
use std::alloc::{AllocError, Global};
use thumb_instr::{BadInstr, Instr};

/// An instruction that control reaches: where the one behind it stands, where it leads if it has an offset,
/// and whether control goes on behind it.
#[derive(Clone, Copy)]
pub(crate) struct Visit {
    pub(crate) node: Node,
    pub(crate) instr: Instr,
    pub(crate) behind: u32,
    pub(crate) aim: Aim,
    pub(crate) goes_on: bool,
}

/// What is known of the instruction at a node.
pub(crate) fn visit_of(o: &Object, chart: &Chart, n: Node, instr: Instr) -> Visit
    requires within { IsTrue (is_within o.now Limit.ANY) }
    requires chart { IsChart o.now chart.now }
    requires found { IsFound o.now n (Ok instr) }
    ensures { IsVisitAt o.now n result }
{
    o.sound();
    Visit {
        node: n,
        instr,
        behind: behind(o, n),
        aim: aim_of(o, chart, n, &instr),
        goes_on: goes_on(o, chart, n, &instr),
    }
}

/// Why halfwords that are no instruction are refused.
fn refusal_of(b: BadInstr) -> Refusal
    ensures { result ≡ refusal_of_bad b }
{
    match b {
        BadInstr::Unknown => Refusal::Unknown,
        BadInstr::Unpredictable => Refusal::Unpredictable,
        BadInstr::SupervisorCall => Refusal::SupervisorCall,
        BadInstr::TableBranch => Refusal::TableBranch,
        BadInstr::ReadsAndSetsFlags => Refusal::ReadsAndSetsFlags,
        BadInstr::SystemInstr => Refusal::SystemInstr,
        BadInstr::PcOperand => Refusal::PcOperand,
    }
}

/// Adds what stands at a node to the visits, or to the spots if it is no instruction.
fn note_node(
    visits: &mut Vec<Visit>,
    spots: &mut Vec<Spot>,
    o: &Object,
    chart: &Chart,
    n: Node,
) -> Result<(), AllocError>
    requires within { IsTrue (is_within o.now Limit.ANY) }
    requires chart { IsChart o.now chart.now }
    requires start { HasStart o.now n.section n.offset }
    ensures { OnOk result (Notes o.now n visits.old.items visits.new.items spots.old.items spots.new.items) }
{
    match found(o, chart, n) {
        Ok(i) => {
            visits.push(visit_of(o, chart, n, i))?;
            Ok(())
        }
        Err(b) => {
            spots.push(spot_of(refusal_of(b), n.section, n.offset))?;
            Ok(())
        }
    }
}

/// What stands at the reached starts. Halfwords that are no instruction are added to the spots.
pub(crate) fn visits_of(
    alloc: Global,
    o: &Object,
    chart: &Chart,
    nodes: &[Node],
    spots: &mut Vec<Spot>,
) -> Result<Vec<Visit>, AllocError>
    requires within { IsTrue (is_within o.now Limit.ANY) }
    requires chart { IsChart o.now chart.now }
    requires nodes { AreNodes o.now nodes.now }
    ensures visits { IfOk result (λ visits. AreVisits o.now visits.items) }
    ensures order { IfOk result (λ visits. AreInOrder o.now nodes.now visits.items) }
    ensures bad { OnOk result (Gains (IsReachedBad o.now) spots.old.items spots.new.items) }
{
    let mut visits = Vec::new(alloc);
    for n in nodes {
        note_node(&mut visits, spots, o, chart, *n)?;
    }
    Ok(visits)
}

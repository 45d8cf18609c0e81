//! Where control goes on from a node.

ghost use Rattle.std.specs.Prelude.{◌≡◌, ◌↔◌, ◌<◌, ◌^◌, true, false, Some, None, IsTrue, if◌then◌else◌, is_some};
ghost use Rattle.std.specs.BTreeMap.{get};
ghost use Rattle.elf_model.specs.Objects.{is_within};
ghost use Rattle.flow_recover.specs.declared.nodes.Node.{Node};
ghost use Rattle.code_ranges.specs.Spans.{place_cmp};
ghost use Rattle.reloc_places.specs.Starts.{behind};
ghost use Rattle.flow_recover.specs.Reach.{falls, is_call, may_fall as may_fall_of, IsDeadEnd, GoesOn, EndsAt, node_behind as node_behind_of, LeadsOn, LeadsAway};
ghost use Rattle.flow_recover.specs.Charts.{IsChart};
ghost use Rattle.flow_recover.specs.Visits.{IsVisit};
ghost use Rattle.flow_recover.specs.Walks.{IsStartAimed};

use crate::aims::{has_offset, offset_in};
use crate::charts::Chart;
use crate::dead_ends::is_dead_end;
use crate::instructions::behind;
use crate::nodes::Node;
use crate::visits::Visit;
use elf_model::{Limit, Object};
use reloc_places::{may_fail, state_behind};
use thumb_instr::{Instr, block_condition};

/// Whether control may go on behind an instruction that is no call, where its IT condition holds.
fn falls(i: &Instr) -> bool
    ensures { result ≡ falls i.now }
{
    match i {
        Instr::Branch(i) => may_fail(i.cond),
        Instr::Call(_) => false,
        Instr::CallReg(_) => false,
        Instr::Jump(_) => false,
        Instr::Multi(i) => !i.pc,
        Instr::Trap(_) => false,
        _ => true,
    }
}

/// BL or BLX.
fn is_call(i: &Instr) -> bool
    ensures { result ≡ is_call i.now }
{
    match i {
        Instr::Call(_) => true,
        Instr::CallReg(_) => true,
        _ => false,
    }
}

/// Whether control may go on behind an instruction that is no call, or that may not be executed.
pub(crate) fn may_fall(n: Node, i: &Instr) -> bool
    ensures { result ≡ may_fall_of n i.now }
{
    may_fail(block_condition(n.it)) || falls(i)
}

/// Whether a call at a node returns.
fn returns(o: &Object, chart: &Chart, n: Node) -> bool
    requires within { IsTrue (is_within o.now Limit.ANY) }
    requires chart { IsChart o.now chart.now }
    requires low { n.offset < 2 ^ 24 }
    ensures { (result ≡ false) ↔ IsDeadEnd o.now n.section (behind o.now n.section n.offset) }
{
    let x = behind(o, n);
    !is_dead_end(o, chart, n.section, x)
}

/// Whether control goes on behind the instruction at a node.
pub(crate) fn goes_on(o: &Object, chart: &Chart, n: Node, i: &Instr) -> bool
    requires within { IsTrue (is_within o.now Limit.ANY) }
    requires chart { IsChart o.now chart.now }
    requires low { n.offset < 2 ^ 24 }
    ensures goes { result ≡ true → GoesOn o.now n i.now }
    ensures ends { result ≡ false → EndsAt o.now n i.now }
{
    if may_fall(n, i) {
        return true;
    }
    is_call(i) && returns(o, chart, n)
}

/// A node, if an instruction starts there.
fn started(chart: &Chart, n: Node) -> Option<Node>
    ensures { result ≡ (if is_some (get place_cmp chart.now.starts (n.section, n.offset)) then Some n else None) }
{
    if chart.starts.contains_key(&(n.section, n.offset)) {
        Some(n)
    } else {
        None
    }
}

/// The node behind an instruction.
pub(crate) fn node_behind(o: &Object, v: &Visit) -> Node
    requires { IsVisit o.now v.now }
    ensures { result ≡ node_behind_of o.now v.now.node v.now.instr }
{
    Node {
        section: v.node.section,
        offset: v.behind,
        it: state_behind(&v.instr, v.node.it),
    }
}

/// The node behind an instruction, if control goes on there.
pub(crate) fn next_of(o: &Object, chart: &Chart, v: &Visit) -> Option<Node>
    requires chart { IsChart o.now chart.now }
    requires visit { IsVisit o.now v.now }
    ensures { (m : Node) → (result ≡ Some m) ↔ LeadsOn o.now v.now.node m }
{
    if v.goes_on {
        started(chart, node_behind(o, v))
    } else {
        None
    }
}

/// The node of its section that an aim leads to, if an instruction starts there.
fn start_aimed(o: &Object, chart: &Chart, v: &Visit) -> Option<Node>
    requires chart { IsChart o.now chart.now }
    requires visit { IsVisit o.now v.now }
    ensures { (m : Node) → (result ≡ Some m) ↔ IsStartAimed o.now v.now.node v.now.instr m }
{
    let offset = offset_in(v.aim)?;
    started(
        chart,
        Node {
            section: v.node.section,
            offset,
            it: 0,
        },
    )
}

/// The node that a branch or call leads to in its section, if an instruction starts there.
pub(crate) fn aimed_of(o: &Object, chart: &Chart, v: &Visit) -> Option<Node>
    requires chart { IsChart o.now chart.now }
    requires visit { IsVisit o.now v.now }
    ensures { (m : Node) → (result ≡ Some m) ↔ LeadsAway o.now v.now.node m }
{
    if has_offset(&v.instr) {
        start_aimed(o, chart, v)
    } else {
        None
    }
}

//! A walk over what control reaches, by starts that wait for their turn.

ghost use Rattle.std.specs.Prelude.{◌≡◌, ◌↔◌, ◌<◌, Some, None, false, IfOk, OnOk, IsTrue, length};
ghost use Rattle.std.specs.BTreeMap.{keys, IsOrdered};
ghost use Rattle.elf_model.specs.Objects.{is_within};
ghost use Rattle.code_ranges.specs.Spans.{place_cmp};
ghost use Rattle.flow_recover.specs.declared.nodes.Node.{Node};
ghost use Rattle.flow_recover.specs.Charts.{IsChart};
ghost use Rattle.flow_recover.specs.Visits.{IsVisit};
ghost use Rattle.flow_recover.specs.Walks.{IsShaped, IsWalk, IsPut, CameTo, IsLed, IsTurned, IsWalkedOn, IsTaken, IsWalkedThrough};

use crate::charts::Chart;
use crate::edges::{aimed_of, next_of};
use crate::indexes::place_index;
use crate::instructions::found;
use crate::nodes::Node;
use crate::visits::{Visit, visit_of};
use elf_model::{Limit, Object};
use index_links::Pending;
use std::alloc::{AllocError, Global};
use std::collections::BTreeSet;

/// The starts in order; a mark for each at which control has come in with a clear IT state; those of them that
/// wait for their turn, by their indexes; and the nodes that have had theirs.
#[derive(Drop)]
pub(crate) struct Walk {
    pub(crate) places: Vec<(u32, u32)>,
    pub(crate) come: Vec<bool>,
    pub(crate) pending: Pending,
    pub(crate) nodes: BTreeSet<Node>,
}

/// The places of all starts in order.
fn start_places(alloc: Global, chart: &Chart) -> Result<Vec<(u32, u32)>, AllocError>
    ensures places { IfOk result (λ places. places.items ≡ keys chart.now.starts) }
    ensures ordered { IsOrdered place_cmp chart.now.starts }
{
    chart.starts.keys().copied().collect(alloc)
}

/// A walk that has not begun, with the memory for every start to wait.
pub(crate) fn new_walk(alloc: Global, o: &Object, chart: &Chart) -> Result<Walk, AllocError>
    requires within { IsTrue (is_within o.now Limit.ANY) }
    requires chart { IsChart o.now chart.now }
    ensures { IfOk result (λ walk. IsWalk o.now walk None) }
{
    o.sound();
    let places = start_places(alloc, chart)?;
    let come = vec![in alloc; false; places.len()]?;
    let pending = Pending::new(alloc, places.len() as u32)?;
    let nodes = BTreeSet::new(alloc);
    Ok(Walk {
        places,
        come,
        pending,
        nodes,
    })
}

/// A start waits, if control has not come in there before.
fn put(walk: &mut Walk, i: u32)
    requires shape { IsShaped walk.old }
    requires there { i < length walk.old.places.items }
    ensures { IsPut i walk.old walk.new }
{
    if walk.come[i as usize] {
        return;
    }
    walk.come[i as usize] = true;
    let _put = walk.pending.put(i);
}

/// Control comes to a node, if there is one, with a clear IT state.
pub(crate) fn come_to(walk: &mut Walk, n: Option<Node>)
    requires { IsShaped walk.old }
    ensures { CameTo n walk.old walk.new }
{
    if let Some(m) = n {
        if let Some(i) = place_index(&walk.places, (m.section, m.offset)) {
            put(walk, i);
        }
    }
}

/// A node whose IT state is clear.
fn clear(n: Option<Node>) -> Option<Node>
    ensures { (m : Node) → (result ≡ Some m) ↔ ((n ≡ Some m) × (m.it ≡ 0)) }
{
    match n {
        None => None,
        Some(m) => if m.it == 0 { Some(m) } else { None },
    }
}

/// A node inside an IT block.
fn in_block(n: Option<Node>) -> Option<Node>
    ensures { (m : Node) → (result ≡ Some m) ↔ ((n ≡ Some m) × ¬ (m.it ≡ 0)) }
{
    match n {
        None => None,
        Some(m) => if m.it == 0 { None } else { Some(m) },
    }
}

/// Control goes on from an instruction. The one behind it has its turn next, if that is inside an IT block.
fn led(walk: &mut Walk, o: &Object, chart: &Chart, v: &Visit) -> Option<Node>
    requires chart { IsChart o.now chart.now }
    requires visit { IsVisit o.now v.now }
    requires walk { IsWalk o.now walk.old (Some v.now.node) }
    ensures { IsLed o.now v.now.node walk.old walk.new result }
{
    let next = next_of(o, chart, v);
    come_to(walk, aimed_of(o, chart, v));
    come_to(walk, clear(next));
    in_block(next)
}

/// Control goes on from a node, if an instruction stands there.
fn go_on(walk: &mut Walk, o: &Object, chart: &Chart, n: Node) -> Option<Node>
    requires within { IsTrue (is_within o.now Limit.ANY) }
    requires chart { IsChart o.now chart.now }
    requires walk { IsWalk o.now walk.old (Some n) }
    ensures { IsLed o.now n walk.old walk.new result }
{
    match found(o, chart, n) {
        Err(_) => None,
        Ok(i) => led(walk, o, chart, &visit_of(o, chart, n, i)),
    }
}

/// A node has its turn. Gives the one that has it next, if that is inside an IT block.
fn turn(walk: &mut Walk, o: &Object, chart: &Chart, n: Node) -> Result<Option<Node>, AllocError>
    requires within { IsTrue (is_within o.now Limit.ANY) }
    requires chart { IsChart o.now chart.now }
    requires walk { IsWalk o.now walk.old (Some n) }
    ensures { IfOk result (λ next. IsTurned o.now n walk.old walk.new next) }
{
    o.sound();
    let next = go_on(walk, o, chart, n);
    walk.nodes.insert(n)?;
    Ok(next)
}

/// A node has its turn, and behind it those inside an IT block.
fn walk_on(walk: &mut Walk, o: &Object, chart: &Chart, n: Node) -> Result<(), AllocError>
    requires within { IsTrue (is_within o.now Limit.ANY) }
    requires chart { IsChart o.now chart.now }
    requires walk { IsWalk o.now walk.old (Some n) }
    ensures { OnOk result (IsWalkedOn o.now (Some n) walk.old walk.new None) }
{
    let mut at = Some(n);
    while let Some(m) = at {
        at = turn(walk, o, chart, m)?;
    }
    Ok(())
}

/// The start that has waited longest.
fn take(walk: &mut Walk) -> Option<Node>
    requires { IsShaped walk.old }
    ensures { IsTaken walk.old walk.new result }
{
    match walk.pending.take() {
        None => None,
        Some(i) => {
            let (section, offset) = walk.places[i as usize];
            Some(Node {
                section,
                offset,
                it: 0,
            })
        }
    }
}

/// Each start that waits has its turn, until none does.
pub(crate) fn walk_through(walk: &mut Walk, o: &Object, chart: &Chart) -> Result<(), AllocError>
    requires within { IsTrue (is_within o.now Limit.ANY) }
    requires chart { IsChart o.now chart.now }
    requires walk { IsWalk o.now walk.old None }
    ensures { OnOk result (IsWalkedThrough o.now walk.old walk.new) }
{
    while let Some(n) = take(walk) {
        walk_on(walk, o, chart, n)?;
    }
    Ok(())
}

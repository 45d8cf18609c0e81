//! The points of an object without faults.

ghost use Rattle.std.specs.Prelude.{◌≡◌, ◌<◌, ◌^◌, map, length, IfOk};
ghost use Rattle.flow_recover.specs.Reach.{IsReached};
ghost use Rattle.flow_recover.specs.WholeFlows.{plain_exit as plain_exit_of, IsExit, IsNext, IsLoaded, IsPoint};
ghost use Rattle.flow_recover.specs.Charts.{IsChart, AreNodes};
ghost use Rattle.flow_recover.specs.Visits.{IsVisit, visit_node, AreVisits};
ghost use Rattle.flow_recover.specs.Settled.{IsFaultless, ArePlaces, ArePointsOf, word_at};

use crate::aims::{Aim, is_branch};
use crate::charts::Chart;
use crate::edges::node_behind;
use crate::indexes::{node_index, place_index};
use crate::literals::{literal_place, reloc_of};
use crate::nodes::Node;
use crate::visits::Visit;
use crate::{Exit, Point};
use elf_model::Object;
use std::alloc::{AllocError, Global};
use thumb_instr::{Instr, block_condition};

/// The exit of an instruction that is no branch.
fn plain_exit(i: &Instr) -> Exit
    ensures { result ≡ plain_exit_of i.now }
{
    match i {
        Instr::Call(_) => Exit::Call,
        Instr::CallReg(_) => Exit::Call,
        Instr::Jump(j) => if j.m.number() == 14 {
            Exit::Return
        } else {
            Exit::Transfer
        },
        Instr::Multi(m) => if m.pc { Exit::Return } else { Exit::Falls },
        Instr::Trap(_) => Exit::Stops,
        _ => Exit::Falls,
    }
}

/// How control leaves an instruction.
fn exit_of(o: &Object, chart: &Chart, nodes: &[Node], v: &Visit) -> Exit
    requires chart { IsChart o.now chart.now }
    requires few { length nodes.now < 2 ^ 32 }
    requires nodes { AreNodes o.now nodes.now }
    requires faultless { IsFaultless o.now }
    requires reached { IsReached o.now v.now.node }
    requires visit { IsVisit o.now v.now }
    ensures { IsExit o.now nodes.now v.now.node v.now.instr result }
{
    if !is_branch(&v.instr) {
        return plain_exit(&v.instr);
    }
    match v.aim {
        Aim::Near(x) => {
            let target = Node {
                section: v.node.section,
                offset: x,
                it: 0,
            };
            match node_index(nodes, target) {
                Some(q) => Exit::Branch(q),
                None => unreachable!(),
            }
        }
        Aim::Shared(_) => Exit::Transfer,
        Aim::Fixed => Exit::Transfer,
        Aim::Far => Exit::Transfer,
    }
}

/// The point behind an instruction, if control goes on there.
fn next_index(o: &Object, chart: &Chart, nodes: &[Node], v: &Visit) -> Option<u32>
    requires chart { IsChart o.now chart.now }
    requires few { length nodes.now < 2 ^ 32 }
    requires nodes { AreNodes o.now nodes.now }
    requires faultless { IsFaultless o.now }
    requires reached { IsReached o.now v.now.node }
    requires visit { IsVisit o.now v.now }
    ensures { IsNext o.now nodes.now v.now.node v.now.instr result }
{
    if v.goes_on {
        node_index(nodes, node_behind(o, v))
    } else {
        None
    }
}

/// The word that an instruction loads, by its index among these places.
fn loaded_word(o: &Object, places: &[(u32, u32)], v: &Visit) -> Option<u32>
    requires few { length places.now < 2 ^ 32 }
    requires places { ArePlaces o.now places.now }
    requires faultless { IsFaultless o.now }
    requires reached { IsReached o.now v.now.node }
    requires visit { IsVisit o.now v.now }
    ensures { IsLoaded (map (word_at o.now) places.now) v.now.node v.now.instr result }
{
    match &v.instr {
        Instr::Literal(l) => match literal_place(v.node.offset, l) {
            Some(w) => place_index(places, (v.node.section, w)),
            None => None,
        },
        _ => None,
    }
}

/// The point of an instruction.
fn point_of(o: &Object, chart: &Chart, nodes: &[Node], places: &[(u32, u32)], v: &Visit) -> Point
    requires chart { IsChart o.now chart.now }
    requires few { length nodes.now < 2 ^ 32 }
    requires few_places { length places.now < 2 ^ 32 }
    requires nodes { AreNodes o.now nodes.now }
    requires places { ArePlaces o.now places.now }
    requires faultless { IsFaultless o.now }
    requires reached { IsReached o.now v.now.node }
    requires visit { IsVisit o.now v.now }
    ensures { IsPoint o.now nodes.now (map (word_at o.now) places.now) v.now.node result }
{
    Point {
        section: v.node.section,
        offset: v.node.offset,
        wide: v.behind - v.node.offset == 4,
        instr: v.instr,
        cond: block_condition(v.node.it),
        exit: exit_of(o, chart, nodes, v),
        next: next_index(o, chart, nodes, v),
        reloc: reloc_of(chart, v.node.section, v.node.offset),
        word: loaded_word(o, places, v),
    }
}

/// The points of the reached instructions.
pub(crate) fn points_of(
    alloc: Global,
    o: &Object,
    chart: &Chart,
    nodes: &[Node],
    visits: &[Visit],
    places: &[(u32, u32)],
) -> Result<Vec<Point>, AllocError>
    requires chart { IsChart o.now chart.now }
    requires few { length nodes.now < 2 ^ 32 }
    requires few_places { length places.now < 2 ^ 32 }
    requires nodes { AreNodes o.now nodes.now }
    requires visits { AreVisits o.now visits.now }
    requires order { map visit_node visits.now ≡ nodes.now }
    requires places { ArePlaces o.now places.now }
    requires faultless { IsFaultless o.now }
    ensures { IfOk result (λ points. ArePointsOf o.now nodes.now (map (word_at o.now) places.now) points.items) }
{
    let mut points = Vec::new(alloc);
    for v in visits {
        points.push(point_of(o, chart, nodes, places, v))?;
    }
    Ok(points)
}

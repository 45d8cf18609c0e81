//! What control reaches.

ghost use Rattle.std.specs.Prelude.{◌≡◌, IfOk, IsTrue, None};
ghost use Rattle.std.specs.BTreeSet.{IsOrdered};
ghost use Rattle.elf_model.specs.Objects.{is_within};
ghost use Rattle.flow_recover.specs.declared.nodes.Node.{Node};
ghost use Rattle.flow_recover.specs.Charts.{IsChart, AreNamed, AreNodes, node_cmp};
ghost use Rattle.flow_recover.specs.Walks.{IsSeed, IsKnown, IsWalk};

use crate::charts::Chart;
use crate::named::Claim;
use crate::nodes::Node;
use crate::walks::{Walk, come_to, new_walk, walk_through};
use elf_model::{Limit, Object};
use std::alloc::{AllocError, Global};
use std::collections::BTreeSet;

/// Control comes to the named places.
fn begin(walk: &mut Walk, o: &Object, named: &[Claim])
    requires named { AreNamed o.now named.now }
    requires walk { IsWalk o.now walk.old None }
    ensures walk { IsWalk o.now walk.new None }
    ensures begun { (n : Node) → IsSeed o.now n → IsKnown walk.new None n }
{
    for c in named {
        come_to(
            walk,
            Some(Node {
                section: c.section,
                offset: c.offset,
                it: 0,
            }),
        );
    }
}

/// The nodes of a set in order.
fn in_order(alloc: Global, nodes: &BTreeSet<Node>) -> Result<Vec<Node>, AllocError>
    ensures items { IfOk result (λ list. list.items ≡ nodes.now.keys) }
    ensures ordered { IsOrdered node_cmp nodes.now }
{
    nodes.iter().copied().collect(alloc)
}

/// The nodes that control reaches from the named places, in order.
pub(crate) fn reached_nodes(
    alloc: Global,
    o: &Object,
    chart: &Chart,
    named: &[Claim],
) -> Result<Vec<Node>, AllocError>
    requires within { IsTrue (is_within o.now Limit.ANY) }
    requires chart { IsChart o.now chart.now }
    requires named { AreNamed o.now named.now }
    ensures { IfOk result (λ nodes. AreNodes o.now nodes.items) }
{
    let mut walk = new_walk(alloc, o, chart)?;
    begin(&mut walk, o, named);
    walk_through(&mut walk, o, chart)?;
    in_order(alloc, &walk.nodes)
}

//! Lists that are linked by indexes.

use index_links::{EdgeLists, Pending, UnitChain};
use std::alloc::AllocError;

#[test]
fn puts_a_unit_between(rt: HostRuntime) -> Result<(), AllocError> {
    let mut units = UnitChain::new(rt.alloc())?;
    units.reserve(4)?;
    assert_eq!(rt; units.push_back(), 0);
    assert_eq!(rt; units.push_back(), 1);
    assert_eq!(rt; units.push_back(), 2);
    assert_eq!(rt; units.insert_after(0), 3);
    assert_eq!(rt; units.first(), Some(0));
    assert_eq!(rt; units.after(0), Some(3));
    assert_eq!(rt; units.after(3), Some(1));
    assert_eq!(rt; units.after(1), Some(2));
    assert_eq!(rt; units.after(2), None);
    assert_eq!(rt; units.before(3), Some(0));
    assert_eq!(rt; units.before(1), Some(3));
    assert_eq!(rt; units.before(0), None);
    Ok(())
}

#[test]
fn goes_along_edges(rt: HostRuntime) -> Result<(), AllocError> {
    let mut edges = EdgeLists::new(rt.alloc(), 3)?;
    edges.reserve(2)?;
    assert_eq!(rt; edges.add(0, 2), 0);
    assert_eq!(rt; edges.add(1, 2), 1);
    assert_eq!(rt; edges.first_in(2), Some(0));
    assert_eq!(rt; edges.source(0), 0);
    assert_eq!(rt; edges.next_in(0), Some(1));
    assert_eq!(rt; edges.source(1), 1);
    assert_eq!(rt; edges.next_in(1), None);
    assert_eq!(rt; edges.first_in(0), None);
    assert_eq!(rt; edges.first_out(1), Some(1));
    assert_eq!(rt; edges.target(1), 2);
    assert_eq!(rt; edges.next_out(1), None);
    Ok(())
}

#[test]
fn waits_once(rt: HostRuntime) -> Result<(), AllocError> {
    let mut pending = Pending::new(rt.alloc(), 2)?;
    assert!(rt; pending.put(1));
    assert!(rt; !pending.put(1));
    assert_eq!(rt; pending.take(), Some(1));
    assert_eq!(rt; pending.take(), None);
    Ok(())
}

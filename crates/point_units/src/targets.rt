//! The points to which branches lead, and calls by their own numbers.

ghost use Rattle.std.specs.Prelude.{◌≡◌, ◌↔◌, ℕ, Some};
ghost use Rattle.flow_recover.specs.Aims.{has_offset as has_offset_of, offset_of as offset_in, own_target as own_target_of};
ghost use Rattle.flow_recover.specs.Points.{PointsRise};
ghost use Rattle.flow_recover.specs.declared.flows.Exit.TheVariants.{Call};
ghost use Rattle.point_units.specs.Units.{LeadsTo};

use flow_recover::{Exit, Flow, Point, point_at};
use thumb_instr::Instr;

/// A branch or BL, which have an offset.
fn has_offset(i: &Instr) -> bool
    ensures { result ≡ has_offset_of i.now }
{
    match i {
        Instr::Branch(_) => true,
        Instr::ZeroBranch(_) => true,
        Instr::Call(_) => true,
        _ => false,
    }
}

fn offset_of(i: &Instr) -> i32
    ensures { result ≡ offset_in i.now }
{
    match i {
        Instr::Branch(i) => i.offset,
        Instr::ZeroBranch(i) => i.offset,
        Instr::Call(i) => i.offset,
        _ => 0,
    }
}

/// Where the instruction at an offset leads by its own number.
fn own_target(at: u32, i: &Instr) -> u32
    ensures { result ≡ own_target_of at i.now }
{
    at.wrapping_add(4).wrapping_add_signed(offset_of(i))
}

/// The point that a call by its own number leads to, if one stands there.
fn called_point(f: &Flow, x: &Point) -> Option<u32>
    requires rise { PointsRise f.now }
    requires call { x.now.exit ≡ Call }
    ensures { (q : ℕ) → (result ≡ Some q) ↔ LeadsTo f.now x.now q }
{
    match x.reloc {
        Some(_) => None,
        None => if has_offset(&x.instr) {
            point_at(f, x.section, own_target(x.offset, &x.instr))
        } else {
            None
        },
    }
}

/// The point that a branch, or a call by its own number, leads to.
pub(crate) fn target_of(f: &Flow, x: &Point) -> Option<u32>
    requires { PointsRise f.now }
    ensures { (q : ℕ) → (result ≡ Some q) ↔ LeadsTo f.now x.now q }
{
    match x.exit {
        Exit::Branch(q) => Some(q),
        Exit::Call => called_point(f, x),
        _ => None,
    }
}

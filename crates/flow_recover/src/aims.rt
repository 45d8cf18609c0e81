//! Where branches and calls lead.

ghost use Rattle.std.specs.Prelude.{◌≡◌, ◌↔◌, Some, IsTrue, slice_get};
ghost use Rattle.elf_model.specs.Objects.{is_within};
ghost use Rattle.elf_model.specs.declared.objects.Reloc.{Reloc};
ghost use Rattle.elf_model.specs.declared.objects.Symbol.{Symbol};
ghost use Rattle.reloc_places.specs.Relocations.{IsRight, target_of};
ghost use Rattle.flow_recover.specs.Aims.{is_branch as is_branch_of, has_offset as has_offset_of, offset_of, own_target, aim_at, IsAim};
ghost use Rattle.flow_recover.specs.declared.aims.Aim.{Aim};
ghost use Rattle.flow_recover.specs.Charts.{IsChart};
ghost use Rattle.flow_recover.specs.Walks.{offset_in};

use crate::charts::Chart;
use crate::nodes::Node;
use elf_model::numbers::LOCAL;
use elf_model::{Home, Limit, Object, Symbol};
use reloc_places::target_of;
use thumb_instr::Instr;

/// Where a branch or a call leads.
#[derive(Clone, Copy)]
pub(crate) enum Aim {
    /// To an offset of its own section, by its own number or by a local symbol.
    Near(u32),
    /// To an offset of its own section, by a symbol that other objects see.
    Shared(u32),
    /// To an absolute address.
    Fixed,
    /// Out of its section.
    Far,
}

/// B, CBZ or CBNZ.
pub(crate) fn is_branch(i: &Instr) -> bool
    ensures { result ≡ is_branch_of i.now }
{
    match i {
        Instr::Branch(_) => true,
        Instr::ZeroBranch(_) => true,
        _ => false,
    }
}

/// A branch or BL, which have an offset.
pub(crate) fn has_offset(i: &Instr) -> bool
    ensures { result ≡ has_offset_of i.now }
{
    match i {
        Instr::Branch(_) => true,
        Instr::ZeroBranch(_) => true,
        Instr::Call(_) => true,
        _ => false,
    }
}

/// The offset of a branch or BL.
fn offset_of(i: &Instr) -> i32
    ensures { result ≡ offset_of i.now }
{
    match i {
        Instr::Branch(i) => i.offset,
        Instr::ZeroBranch(i) => i.offset,
        Instr::Call(i) => i.offset,
        _ => 0,
    }
}

/// Where the instruction at an offset leads by its own number.
fn own_target(at: u32, i: &Instr) -> u32
    ensures { result ≡ own_target at i.now }
{
    at.wrapping_add(4).wrapping_add_signed(offset_of(i))
}

/// The offset of its own section to which an aim leads.
pub(crate) fn offset_in(aim: Aim) -> Option<u32>
    ensures { result ≡ offset_in aim }
{
    match aim {
        Aim::Near(x) => Some(x),
        Aim::Shared(x) => Some(x),
        Aim::Fixed => None,
        Aim::Far => None,
    }
}

/// Where a symbol sends a branch of a section.
fn aim_at(section: u32, s: &Symbol, target: u32) -> Aim
    ensures { result ≡ aim_at section s.now s.now.home target }
{
    match s.home {
        Home::Undefined => Aim::Far,
        Home::Absolute => Aim::Fixed,
        Home::Section(h) => if h != section {
            Aim::Far
        } else if s.bind == LOCAL {
            Aim::Near(target)
        } else {
            Aim::Shared(target)
        },
    }
}

/// Where a right relocation sends a branch of a section.
fn symbol_aim(o: &Object, section: u32, index: u32) -> Aim
    requires within { IsTrue (is_within o.now Limit.ANY) }
    requires right { (r : Reloc) × IsRight o.now index r }
    ensures { (r : Reloc) (s : Symbol) → slice_get o.now.relocs index ≡ Some r → slice_get o.now.symbols r.symbol ≡ Some s → result ≡ aim_at section s s.home (target_of o.now r s) }
{
    o.sound();
    let r = &o.relocs()[index as usize];
    let s = &o.symbols()[r.symbol as usize];
    aim_at(section, s, target_of(o, r, s))
}

/// Where the branch or call that stands at a node leads.
pub(crate) fn aim_of(o: &Object, chart: &Chart, n: Node, i: &Instr) -> Aim
    requires within { IsTrue (is_within o.now Limit.ANY) }
    requires chart { IsChart o.now chart.now }
    ensures { (aim : Aim) → (result ≡ aim) ↔ IsAim o.now n.section n.offset i.now aim }
{
    o.sound();
    match chart.relocs.get(&(n.section, n.offset)) {
        None => Aim::Near(own_target(n.offset, i)),
        Some(p) => if p.right {
            symbol_aim(o, n.section, p.index)
        } else {
            Aim::Far
        },
    }
}

//! Copies of steps, their widths and their bytes.

ghost use Rattle.std.specs.Prelude.{◌≡◌, ◌≤◌, ◌++◌, length, replicate, IfOk, OnOk};
ghost use Rattle.branch_layout.specs.Copies.{copies_of as copies_in, bytes_of as width_bytes, length_of as total_bytes};
ghost use Rattle.branch_layout.specs.Widths.{IsShortest, IsLong, AreLong};

use seq_core::Step;
use std::alloc::{AllocError, Global};
use thumb_encode::{Width, encode};
use thumb_instr::Instr;

/// Appends a step as often as it stands.
fn push_copies(copies: &mut Vec<Step>, step: &Step) -> Result<(), AllocError>
    ensures { OnOk result (copies.new.items ≡ copies.old.items ++ replicate step.now.copies step.now) }
{
    copies.resize(copies.len() + step.copies as usize, *step)
}

/// The steps, each as often as it stands.
pub(crate) fn copies_of(alloc: Global, steps: &[Step]) -> Result<Vec<Step>, AllocError>
    ensures { IfOk result (λ v. v.items ≡ copies_in steps.now) }
{
    let mut copies = Vec::new(alloc);
    for step in steps {
        push_copies(&mut copies, step)?;
    }
    Ok(copies)
}

/// One halfword where the instruction has such a code.
fn shortest(i: &Instr) -> Width
    ensures { IsShortest i.now result }
{
    match encode(i, Width::Half) {
        Some(_) => Width::Half,
        None => Width::Full,
    }
}

fn long_width(i: &Instr) -> Width
    ensures { IsLong i.now result }
{
    match i {
        Instr::Branch(_) => Width::Full,
        Instr::Literal(_) => Width::Full,
        _ => shortest(i),
    }
}

/// The widths of copies in the long layout.
pub(crate) fn long_widths(alloc: Global, copies: &[Step]) -> Result<Vec<Width>, AllocError>
    ensures { IfOk result (λ v. AreLong copies.now v.items) }
{
    let mut widths = Vec::new(alloc);
    for copy in copies {
        widths.push(long_width(&copy.instr))?;
    }
    Ok(widths)
}

/// The bytes of a code.
pub(crate) fn bytes_of(width: Width) -> u32
    ensures value { result ≡ width_bytes width }
    ensures few { result ≤ 4 }
{
    match width {
        Width::Half => 2,
        Width::Full => 4,
    }
}

/// The bytes of codes.
pub(crate) fn length_of(widths: &[Width]) -> u32
    requires { length widths.now ≤ 32 }
    ensures { result ≡ total_bytes widths.now }
{
    let mut total: u32 = 0;
    for width in widths {
        total += bytes_of(*width);
    }
    total
}

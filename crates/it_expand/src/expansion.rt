//! From the points of a flow to instructions under guards.

ghost use Rattle.std.specs.Prelude.{◌≡◌, IfOk, map};
ghost use Rattle.seq_core.specs.Guards.{inverse};
ghost use Rattle.it_expand.specs.Expanded.{body_of, expanded, guard_of};

use flow_recover::{Flow, Point};
use std::alloc::{AllocError, Global};
use thumb_instr::{Cond, Instr};

/// What a point becomes: the condition on which its body is passed by, if any, and its body; `None` for IT.
#[derive(Clone, Copy, Debug)]
pub struct CondInstr {
    pub guard: Option<Cond>,
    pub body: Option<Instr>,
}

/// The condition that holds exactly where another fails; of `Al`, which cannot fail, it is `Al`.
fn inverse(c: Cond) -> Cond
    ensures { result ≡ inverse c }
{
    match c {
        Cond::Eq => Cond::Ne,
        Cond::Ne => Cond::Eq,
        Cond::Cs => Cond::Cc,
        Cond::Cc => Cond::Cs,
        Cond::Mi => Cond::Pl,
        Cond::Pl => Cond::Mi,
        Cond::Vs => Cond::Vc,
        Cond::Vc => Cond::Vs,
        Cond::Hi => Cond::Ls,
        Cond::Ls => Cond::Hi,
        Cond::Ge => Cond::Lt,
        Cond::Lt => Cond::Ge,
        Cond::Gt => Cond::Le,
        Cond::Le => Cond::Gt,
        Cond::Al => Cond::Al,
    }
}

fn guard_of(c: Cond) -> Option<Cond>
    ensures { result ≡ guard_of c }
{
    match c {
        Cond::Al => None,
        _ => Some(inverse(c)),
    }
}

fn body_of(i: &Instr) -> Option<Instr>
    ensures { result ≡ body_of i.now }
{
    match i {
        Instr::It(_) => None,
        _ => Some(*i),
    }
}

#[tactic(auto, unfolding(crate::specs::Expanded::expanded))]
fn expanded(p: &Point) -> CondInstr
    ensures { result ≡ expanded p.now }
{
    CondInstr {
        guard: guard_of(p.cond),
        body: body_of(&p.instr),
    }
}

/// The points of a flow as instructions under guards, one for each point, in their order. The guard is the
/// inverse of the point's condition (ARMv7-M ARM, A7.3), with none for `Al`.
///
/// # Errors
///
/// Where memory does not suffice.
pub fn expand(alloc: Global, f: &Flow) -> Result<Vec<CondInstr>, AllocError>
    ensures { IfOk result (λ v. v.items ≡ map expanded f.now.points) }
{
    let points = f.points();
    let mut bodies = Vec::new(alloc);
    for point in points {
        bodies.push(expanded(point))?;
    }
    Ok(bodies)
}

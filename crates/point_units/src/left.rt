//! The instructions that are replaced, with what is left to their relocations.

ghost use Rattle.std.specs.Prelude.{◌≡◌, Some};
ghost use Rattle.emit_object.specs.Readable.{AreReadable, IsReadable};
ghost use Rattle.point_units.specs.Units.{left_by as left_by_reloc, left_instr as left_instr_of};

use elf_model::{Object, Reloc};
use emit_object::is_turned;
use flow_recover::Point;
use thumb_instr::{Half, Instr};

/// What a relocation leaves of its instruction: of MOVW and MOVT the number 0, where it turns.
fn left_by(o: &Object, r: &Reloc, i: &Instr) -> Instr
    requires { IsReadable o.now r.now }
    ensures { result ≡ left_by_reloc o.now (Some r.now) i.now }
{
    match i {
        Instr::Half(h) => if is_turned(o, r) {
            Instr::Half(Half {
                top: h.top,
                d: h.d,
                imm: 0,
            })
        } else {
            *i
        },
        _ => *i,
    }
}

/// The instruction of a point that is replaced.
pub(crate) fn left_instr(o: &Object, x: &Point) -> Instr
    requires { AreReadable o.now }
    ensures { result ≡ left_instr_of o.now x.now }
{
    let Some(k) = x.reloc else {
        return x.instr;
    };
    match o.relocs().get(k as usize) {
        None => x.instr,
        Some(r) => left_by(o, r, &x.instr),
    }
}

//! Lists that are moved to and from memory.

ghost use Rattle.std.specs.Prelude.{◌≡◌, false, length, true};
ghost use Rattle.thumb_instr.specs.Operands.{is_list};
ghost use Rattle.thumb_table.specs.Effects.{registers};
ghost use Rattle.seq_core.specs.Built.{as_steps};
ghost use Rattle.seq_core.specs.Classes.{moves_list_base};
ghost use Rattle.seq_core.specs.Stacks.{transfer_at};
ghost use Rattle.seq_core.specs.Replaced.{moved_list};

use seq_core::{Seq, count_registers, moved, sequence, sole_register, summed};
use thumb_instr::{Access, AccessOp, Instr, Multi, Place, Reg, RegSet};

/// What moves a list from a base upwards: of one register it is LDR or STR.
pub(crate) fn transfer(load: bool, n: Reg, list: RegSet) -> Instr
    requires { is_list list.0 false ≡ true }
    ensures { result ≡ transfer_at load n list (registers list.0) }
{
    match sole_register(list) {
        Some(t) => Instr::Access(Access {
            op: if load { AccessOp::Ldr } else { AccessOp::Str },
            t,
            n,
            place: Place::Offset { up: true, imm: 0 },
        }),
        None => Instr::Multi(Multi {
            load,
            down: false,
            back: false,
            n,
            list,
            pc: false,
        }),
    }
}

/// The sequence of a list that moves its base. Downwards the base moves first, so nothing is stored below it as
/// it then stands.
pub(crate) fn moved_list(i: &Instr, q: Reg, copies: u8) -> Seq
    requires { moves_list_base i.now ≡ true }
    ensures { result ≡ record { steps = as_steps copies (moved_list i.now q); landing = length (moved_list i.now q) } }
{
    match i {
        Instr::Multi(i) => {
            let list = transfer(i.load, i.n, i.list);
            let step = summed(!i.down, q, i.n, 4 * count_registers(i.list));
            let back = moved(false, i.n, q);
            if i.down {
                sequence(&[step, back, list], copies)
            } else {
                sequence(&[list, step, back], copies)
            }
        }
        _ => unreachable!(),
    }
}

//! What stands at a node.

ghost use Rattle.std.specs.Prelude.{◌≡◌, ◌<◌, ◌^◌, IsTrue};
ghost use Rattle.elf_model.specs.Objects.{is_within};
ghost use Rattle.reloc_places.specs.Starts.{behind as behind_of, HasStart};
ghost use Rattle.flow_recover.specs.Reach.{IsFound};
ghost use Rattle.flow_recover.specs.Charts.{IsChart};

use crate::charts::{Chart, end_at};
use crate::nodes::Node;
use elf_model::{Limit, Object};
use reloc_places::{bytes_of, instr_at, length_from};
use thumb_instr::{BadInstr, Instr};

/// What stands at a start: an instruction, or why it is none.
pub(crate) fn found(o: &Object, chart: &Chart, n: Node) -> Result<Instr, BadInstr>
    requires within { IsTrue (is_within o.now Limit.ANY) }
    requires chart { IsChart o.now chart.now }
    requires start { HasStart o.now n.section n.offset }
    ensures { IsFound o.now n result }
{
    o.sound();
    let bytes = bytes_of(o, n.section);
    match end_at(chart, n.section, n.offset) {
        Some(end) => instr_at(bytes, end, n.offset, n.it),
        None => unreachable!(),
    }
}

/// Where the instruction behind a node stands.
pub(crate) fn behind(o: &Object, n: Node) -> u32
    requires { n.offset < 2 ^ 24 }
    ensures { result ≡ behind_of o.now n.section n.offset }
{
    n.offset + length_from(bytes_of(o, n.section), n.offset)
}

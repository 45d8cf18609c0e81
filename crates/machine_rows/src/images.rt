//! Parts of images, and what jumps and conditions make of words.

ghost use Rattle.std.specs.Prelude.{◌≡◌, ◌<◌, ◌+◌, ◌^◌, IfOk, length, map};
ghost use Rattle.std.specs.List.Sorted.{IsStrictlyIncreasing};

use elf_model::Name;
use mark_word::{Cell, Mark, Word};
use std::alloc::{AllocError, Global};
use std::test::Fail;
use thumb_instr::{Instr, Jump, Move, MoveOp, Operand, Reg};
use thumb_table::{CodeBytes, Core, FaultKind, Image, Memory, NamedEntry, Part, PlaceMark, apply};

/// A NOP, MOV of r8 to itself, `bx lr`; a stop at its end.
fn code(alloc: Global) -> Result<CodeBytes, AllocError>
    ensures { IfOk result (λ c. IsStrictlyIncreasing (map (λ p. p.at) c.marks) × IsStrictlyIncreasing c.stops × (c.base + length c.bytes < 2 ^ 32)) }
{
    let bytes = Vec::from_slice(alloc, &[0x00, 0xbf, 0xc0, 0x46, 0x70, 0x47])?;
    let marks = vec![in alloc;
        PlaceMark {
            at: 0x8000,
            mark: Mark::Entry(0x8001)
        },
    ]?;
    let stops = vec![in alloc; 0x8004]?;
    Ok(CodeBytes::new(0x8000, bytes, marks, stops))
}

fn image(alloc: Global) -> Result<Image, AllocError> {
    let name = Name::new(Vec::from_slice(alloc, b"f")?);
    let entries = vec![in alloc;
        NamedEntry {
            name,
            address: 0x8001
        },
    ]?;
    let part = Part {
        object: 0,
        code: true,
        ordinal: 0,
        start: 0x8000,
        size: 6,
    };
    let parts = vec![in alloc; part]?;
    let memory = Memory::new(0x8008, vec![in alloc; Cell::bare(7)]?);
    Ok(Image::new(code(alloc)?, memory, 8, parts, entries))
}

#[test]
fn gives_entries_and_bytes(rt: HostRuntime) -> Result<(), Fail> {
    let image = image(rt.alloc())?;
    assert_eq!(rt; image.entry(b"f"), Some(0x8001));
    assert_eq!(rt; image.entry(b"g"), None);
    assert_eq!(rt; image.parts().len() + image.entries().len(), 2);
    assert_eq!(rt; image.code().marks().len() + image.code().stops().len(), 2);
    assert_eq!(rt; image.memory().base(), 0x8008);
    assert_eq!(rt; image.code().half(0x8004), Some(0x4770));
    assert_eq!(rt; image.code().half(0x8005), None);
    assert!(rt; image.code().holds(0x8000, 6) && !image.code().holds(0x7fff, 1));
    if image.code().bytes().len() <= image.room() as usize {
        let bytes = image.bytes(rt.alloc())?;
        assert_eq!(rt;
            bytes.as_slice(),
            [0x00, 0xbf, 0xc0, 0x46, 0x70, 0x47, 0, 0, 7].as_slice()
        );
    }
    Ok(())
}

/// Registers of which r1 has a word and the others 0.
fn registers(w: Word, it: u8) -> Core
    ensures { result.pc ≡ 0x8000 }
{
    let mut r = [Word::plain(0); 15];
    r[1] = w;
    Core {
        r,
        pc: 0x8000,
        n: false,
        z: false,
        c: false,
        v: false,
        it,
    }
}

#[test]
fn moves_words(rt: HostRuntime) -> Result<(), Fail> {
    let code = code(rt.alloc())?;
    let entry = Word::entry(0x8001);
    for (d, x, it, answer, word) in [
        (0, Operand::Imm(5), 0, Ok(true), Word::plain(5)),
        (0, Operand::Imm(5), 0x08, Ok(true), Word::plain(0)),
        (0, Operand::Imm(5), 0x18, Ok(true), Word::plain(5)),
        (
            13,
            Operand::Imm(5),
            0,
            Err(FaultKind::BadStack),
            Word::plain(0),
        ),
    ] {
        let d = Reg::new(d).unwrap();
        let i = Instr::Move(Move::new(MoveOp::Mov, true, d, x).unwrap());
        let mut memory = Memory::new(0x8008, Vec::new(rt.alloc()));
        let mut s = registers(entry, it);
        assert_eq!(rt;
            apply(&i, false, &code, &mut s, &mut memory),
            answer,
            "{it}"
        );
        assert_eq!(rt; s.r[d.number() as usize], word, "{it}");
        assert_eq!(rt; s.it, 0);
    }
    Ok(())
}

#[test]
fn jumps(rt: HostRuntime) -> Result<(), Fail> {
    let code = code(rt.alloc())?;
    let i = Instr::Jump(Jump::new(Reg::new(1).unwrap()).unwrap());
    for (w, answer, pc) in [
        (Word::returning(0x7fff_ffff), Ok(true), 0x7fff_fffe),
        (Word::returning(0x8007), Ok(true), 0x8006),
        (Word::returning(0x8001), Ok(false), 0x8000),
        (Word::returning(0x8005), Ok(false), 0x8004),
        (Word::entry(0x8001), Ok(true), 0x8000),
        (Word::plain(0x8001), Ok(false), 0x8000),
        (Word::plain(0x8002), Err(FaultKind::BadJump), 0x8000),
    ] {
        let mut memory = Memory::new(0x8008, Vec::new(rt.alloc()));
        let mut s = registers(w, 0);
        assert_eq!(rt;
            apply(&i, true, &code, &mut s, &mut memory),
            answer,
            "{w:?}"
        );
        assert_eq!(rt; s.pc, pc, "{w:?}");
    }
    Ok(())
}

//! Rows of `harden` over objects of all kinds.

use crate::calls::{Answer, Call, answers};
use hardened_files::{branching, refused, straight};
use std::alloc::Global;
use std::process::Abort;
use std::test::Fail;

/// What `harden a.o b.o` makes of a file.
fn makes(rt: &impl Abort, alloc: Global, file: &[u8], want: Answer<'_>) -> Result<(), Fail> {
    let call = Call {
        words: "harden a.o b.o",
        files: &[("a.o", file)],
        shelf_fails: &[],
        sink_fails: &[],
    };
    answers(rt, alloc, &call, "b.o", want)
}

/// Files that are hardened to others, with their counts.
fn harden_to(
    rt: &impl Abort,
    alloc: Global,
    rows: &[(&[u8], &[u8], &str, u32)],
) -> Result<(), Fail> {
    for (plain, hardened, counts, factor) in rows {
        let text = format!(in alloc;
            "b.o: {counts}, 0 dropped, factor {factor}\nfactor {factor}\n"
        )?;
        makes(rt, alloc, plain, (0, &text, Some(*hardened)))?;
    }
    Ok(())
}

#[test]
fn hardens_straight_code(rt: HostRuntime) -> Result<(), Fail> {
    let rows: [(&[u8], &[u8], &str, u32); 8] = [
        (
            &straight::ADDS,
            &straight::ADDS_HARDENED,
            "1 functions, 2 -> 6 instructions, 4 -> 16 bytes",
            4,
        ),
        (
            &straight::MULS,
            &straight::MULS_HARDENED,
            "1 functions, 2 -> 6 instructions, 4 -> 20 bytes",
            4,
        ),
        (
            &straight::PUSH_AND_POP,
            &straight::PUSH_AND_POP_HARDENED,
            "1 functions, 2 -> 14 instructions, 4 -> 44 bytes",
            8,
        ),
        (
            &straight::POP_PC,
            &straight::POP_PC_HARDENED,
            "1 functions, 1 -> 8 instructions, 2 -> 24 bytes",
            8,
        ),
        (
            &straight::WIDE_POP_PC,
            &straight::WIDE_POP_PC_HARDENED,
            "1 functions, 1 -> 8 instructions, 4 -> 24 bytes",
            8,
        ),
        (
            &straight::UNDER_CONDITION,
            &straight::UNDER_CONDITION_HARDENED,
            "1 functions, 4 -> 8 instructions, 8 -> 24 bytes",
            4,
        ),
        (
            &straight::UNDER_CONDITIONS,
            &straight::UNDER_CONDITIONS_HARDENED,
            "1 functions, 5 -> 12 instructions, 10 -> 36 bytes",
            4,
        ),
        (
            &straight::LONG_SUM,
            &straight::LONG_SUM_HARDENED,
            "1 functions, 4 -> 16 instructions, 10 -> 44 bytes",
            10,
        ),
    ];
    harden_to(&rt, rt.alloc(), &rows)
}

#[test]
fn hardens_calls_branches_and_relocations(rt: HostRuntime) -> Result<(), Fail> {
    let rows: [(&[u8], &[u8], &str, u32); 8] = [
        (
            &branching::CALLS,
            &branching::CALLS_HARDENED,
            "1 functions, 6 -> 26 instructions, 16 -> 84 bytes",
            8,
        ),
        (
            &branching::REGISTER_CALL,
            &branching::REGISTER_CALL_HARDENED,
            "1 functions, 4 -> 20 instructions, 8 -> 60 bytes",
            8,
        ),
        (
            &branching::NO_RETURN,
            &branching::NO_RETURN_HARDENED,
            "2 functions, 3 -> 20 instructions, 8 -> 64 bytes",
            8,
        ),
        (
            &branching::NO_RETURN_LAST,
            &branching::NO_RETURN_LAST_HARDENED,
            "1 functions, 1 -> 6 instructions, 4 -> 20 bytes",
            6,
        ),
        (
            &branching::COMPILED,
            &branching::COMPILED_HARDENED,
            "1 functions, 4 -> 8 instructions, 12 -> 24 bytes",
            2,
        ),
        (
            &branching::LOOP,
            &branching::LOOP_HARDENED,
            "1 functions, 4 -> 10 instructions, 10 -> 32 bytes",
            4,
        ),
        (
            &branching::ZERO_BRANCH,
            &branching::ZERO_BRANCH_HARDENED,
            "1 functions, 3 -> 8 instructions, 6 -> 20 bytes",
            4,
        ),
        (
            &branching::REFERENCES,
            &branching::REFERENCES_HARDENED,
            "2 functions, 7 -> 26 instructions, 20 -> 84 bytes",
            8,
        ),
    ];
    harden_to(&rt, rt.alloc(), &rows)
}

#[test]
fn refuses_code(rt: HostRuntime) -> Result<(), Fail> {
    let rows: [(&[u8], &str); 6] = [
        (
            &refused::LONG_SUM_WITHOUT_REGISTERS,
            "a.o: refused 23 NoScratch section 0 offset 0 need 3 have 1 flags no\n",
        ),
        (
            &refused::ADCS,
            "a.o: refused 15 ReadsAndSetsFlags section 0 offset 0\n",
        ),
        (
            &refused::SVC,
            "a.o: refused 13 SupervisorCall section 0 offset 0\n",
        ),
        (
            &refused::TBB,
            "a.o: refused 14 TableBranch section 0 offset 0\n",
        ),
        (
            &refused::AFTER_CALL,
            "a.o: refused 22 LiveAtReturn section 0 offset 2 register 12\n",
        ),
        (
            &refused::FLAGS_AT_ENTRY,
            "a.o: refused 21 LiveAtEntry section 0 offset 0 register 17\n",
        ),
    ];
    for (file, text) in rows {
        makes(&rt, rt.alloc(), file, (1, text, None))?;
    }
    Ok(())
}

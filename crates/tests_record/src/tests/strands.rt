ghost use Rattle.std.specs.Prelude.{IfOk, OnOk};
ghost use Rattle.cw_strand.specs.Standing.{StandsIn};

use cw_base::{Seq, Text};
use cw_code::{CellInfo, Code, FaultKind, Func, Instr, Limits, Program, verify};
use cw_strand::{Given, Strand, Want};
use std::alloc::Global;
use std::process::Abort;
use std::test::Fail;

// Functions, each with its parameters, its locals, its start and its end, and instructions, each with its operands. The one array has 4
// elements.
#[derive(Clone, Copy)]
struct Listing {
    funcs: &'static [(u32, u32, u32, u32)],
    instrs: &'static [(u8, i64, u32)],
}

// Doubles each number below 4 into the array, by calls, and outputs the last element.
fn doubles() -> Listing {
    Listing {
        funcs: &[(0, 1, 0, 19), (1, 1, 19, 23)],
        instrs: &[
            (32, 0, 0), // 0 tick
            (2, 0, 0), // 1 local 0
            (1, 4, 0), // 2 push 4
            (17, 0, 0), // 3 lt
            (22, 14, 0), // 4 jumpz 14
            (2, 0, 0), // 5 local 0
            (2, 0, 0), // 6 local 0
            (23, 1, 0), // 7 call 1
            (7, 0, 4), // 8 storex 0 4
            (2, 0, 0), // 9 local 0
            (1, 1, 0), // 10 push 1
            (8, 0, 0), // 11 add
            (3, 0, 0), // 12 set 0
            (21, 0, 0), // 13 jump 0
            (1, 3, 0), // 14 push 3
            (5, 0, 4), // 15 loadx 0 4
            (26, 0, 0), // 16 out
            (1, 0, 0), // 17 push 0
            (24, 0, 0), // 18 ret
            (2, 0, 0), // 19 local 0
            (2, 0, 0), // 20 local 0
            (8, 0, 0), // 21 add
            (24, 0, 0), // 22 ret
        ],
    }
}

// Tells the arguments apart: outputs 9 - 2.
fn takes_two() -> Listing {
    Listing {
        funcs: &[(0, 0, 0, 6), (2, 2, 6, 10)],
        instrs: &[
            (1, 9, 0), // 0 push 9
            (1, 2, 0), // 1 push 2
            (23, 1, 0), // 2 call 1
            (26, 0, 0), // 3 out
            (1, 0, 0), // 4 push 0
            (24, 0, 0), // 5 ret
            (2, 0, 0), // 6 local 0
            (2, 1, 0), // 7 local 1
            (9, 0, 0), // 8 sub
            (24, 0, 0), // 9 ret
        ],
    }
}

// Loads an element that does not exist.
fn beyond() -> Listing {
    Listing {
        funcs: &[(0, 0, 0, 3)],
        instrs: &[(1, 4, 0), (5, 0, 4), (24, 0, 0)],
    }
}

// Calls itself.
fn deeper() -> Listing {
    Listing {
        funcs: &[(0, 0, 0, 2)],
        instrs: &[(23, 0, 0), (24, 0, 0)],
    }
}

// One strand outputs 1, beside one that outputs 2.
fn forks() -> Listing {
    Listing {
        funcs: &[(0, 0, 0, 9)],
        instrs: &[
            (29, 4, 0), // 0 fork 4
            (1, 1, 0), // 1 push 1
            (26, 0, 0), // 2 out
            (31, 0, 0), // 3 done
            (1, 2, 0), // 4 push 2
            (26, 0, 0), // 5 out
            (30, 0, 0), // 6 sync
            (1, 0, 0), // 7 push 0
            (24, 0, 0), // 8 ret
        ],
    }
}

fn within(fuel: u64, size: u32) -> Limits {
    Limits {
        fuel,
        size,
        aborts: 1,
        strands: 1,
        moves: 1,
    }
}

fn code(alloc: Global, listing: &Listing) -> Result<Code, Fail> {
    let mut funcs = Seq::new(alloc);
    for (params, locals, start, end) in listing.funcs {
        funcs.push(Func {
            params: *params,
            locals: *locals,
            start: *start,
            end: *end,
        })?;
    }
    let mut instrs = Seq::new(alloc);
    for (op, a, b) in listing.instrs {
        instrs.push(Instr {
            op: *op,
            a: *a,
            b: *b,
        })?;
    }
    Ok(Code {
        cells: 4,
        funcs,
        instrs,
    })
}

fn program(alloc: Global, listing: &Listing) -> Result<Program, Fail> {
    let name = Text::from_ascii(alloc, b"a")?;
    let code = verify(alloc, code(alloc, listing)?)?;
    if code.code().funcs.len() == 0 || code.code().cells != 4 {
        return Err("no main, or other cells".into());
    }
    let mut cells = Seq::new(alloc);
    cells.push(CellInfo {
        name,
        len: 4,
        base: 0,
        init: 0,
    })?;
    Ok(Program {
        code,
        cells,
        main: 0,
    })
}

// Returns the answer to a want, by an array.
fn answered(want: Want, elements: &mut [i64; 4]) -> Given {
    match want {
        Want::Load(cell) if cell < 4 => Given::Value(elements[cell as usize]),
        Want::Store(cell, value) if cell < 4 => {
            elements[cell as usize] = value;
            Given::Nothing
        }
        _ => Given::Nothing,
    }
}

// Makes the strand of a main without parameters.
fn strand_of(alloc: Global, program: &Program, limits: Limits) -> Result<Strand, Fail>
    ensures { IfOk result (λ s. StandsIn program.now.code s) }
{
    let Some(main) = program.code.code().func(u64::from(program.main)) else {
        return Err("no main".into());
    };
    if main.params != 0 {
        return Err("main takes words".into());
    }
    Ok(Strand::main(alloc, program, &[], limits)?)
}

// Asserts that a strand has these wants, if an array answers them.
fn wants_of_strand_are(
    rt: &impl Abort,
    program: &Program,
    strand: &mut Strand,
    wants: &[Want],
) -> Result<(), Fail>
    requires { StandsIn program.now.code strand.old }
{
    let mut elements = [0; 4];
    let mut given = Given::Nothing;
    for want in wants {
        let found = strand.next(program, given)?;
        assert!(rt; found == *want);
        given = answered(found, &mut elements);
    }
    Ok(())
}

// Asserts that the strand of a program's main has these wants.
fn wants_of_program_are(
    rt: &impl Abort,
    alloc: Global,
    program: &Program,
    limits: Limits,
    wants: &[Want],
) -> Result<(), Fail> {
    let mut strand = strand_of(alloc, program, limits)?;
    let asked = wants_of_strand_are(rt, program, &mut strand, wants);
    drop(strand);
    asked
}

fn wants_are(
    rt: &impl Abort,
    alloc: Global,
    listing: &Listing,
    limits: Limits,
    wants: &[Want],
) -> Result<(), Fail> {
    let program = program(alloc, listing)?;
    let asked = wants_of_program_are(rt, alloc, &program, limits, wants);
    drop(program);
    asked
}

#[test]
fn strands_of_code_are_asked_want_by_want(rt: HostRuntime) -> Result<(), Fail> {
    let all = [
        Want::Store(0, 0),
        Want::Store(1, 2),
        Want::Store(2, 4),
        Want::Store(3, 6),
        Want::Load(3),
        Want::Out(6),
        Want::Done,
    ];
    let tired = [Want::Store(0, 0), Want::Fault(FaultKind::Fuel)];
    let full = [Want::Store(0, 0), Want::Fault(FaultKind::Size)];
    let table: [(Listing, u64, u32, &[Want]); 7] = [
        (doubles(), 9, 6, &all),
        (doubles(), 3, 6, &tired),
        (doubles(), 9, 1, &full),
        (takes_two(), 1, 1, &[Want::Out(7), Want::Done]),
        (beyond(), 1, 1, &[Want::Fault(FaultKind::Range)]),
        (deeper(), 9999, 1, &[Want::Fault(FaultKind::Fuel)]),
        (deeper(), 10000, 1, &[Want::Fault(FaultKind::Depth)]),
    ];
    for (listing, fuel, size, wants) in table {
        wants_are(&rt, rt.alloc(), &listing, within(fuel, size), wants)?;
    }
    Ok(())
}

// Returns the left strand of the fork that a strand wants.
fn forked(alloc: Global, strand: &mut Strand, program: &Program) -> Result<Strand, Fail>
    requires { StandsIn program.now.code strand.old }
    ensures left { IfOk result (λ s. StandsIn program.now.code s) }
    ensures right { OnOk result (StandsIn program.now.code strand.new) }
{
    match strand.next(program, Given::Nothing)? {
        Want::Fork => Ok(strand.fork()?),
        _ => Err("no fork".into()),
    }
}

// Lets a strand output `number` and end.
fn ends(strand: &mut Strand, program: &Program, number: i64) -> Result<(), Fail>
    requires { StandsIn program.now.code strand.old }
    ensures stands { OnOk result (StandsIn program.now.code strand.new) }
{
    if strand.next(program, Given::Nothing)? != Want::Out(number) {
        return Err("another want".into());
    }
    match strand.next(program, Given::Nothing)? {
        Want::Sync | Want::Done => Ok(()),
        _ => Err("no end".into()),
    }
}

// Lets both strands of a fork end, and joins them. Returns what the strand that forked wants then.
fn want_behind(left: Strand, right: Strand, program: &Program) -> Result<Want, Fail>
    requires left { StandsIn program.now.code left }
    requires right { StandsIn program.now.code right }
{
    let (mut left, mut right) = (left, right);
    match ends(&mut left, program, 1) {
        Ok(_) => {}
        Err(fault) => {
            drop(left);
            drop(right);
            return Err(fault);
        }
    }
    match ends(&mut right, program, 2) {
        Ok(_) => {}
        Err(fault) => {
            drop(left);
            drop(right);
            return Err(fault);
        }
    }
    right.joined(left);
    let want = right.next(program, Given::Nothing);
    drop(right);
    Ok(want?)
}

// Returns what the strand that forked wants behind the fork, with this limit on its size.
fn want_after_join(alloc: Global, size: u32) -> Result<Want, Fail> {
    let program = program(alloc, &forks())?;
    let want = want_of(alloc, &program, size);
    drop(program);
    want
}

// Returns what the strand that forked wants behind the fork of a program, with this limit on its size.
fn want_of(alloc: Global, program: &Program, size: u32) -> Result<Want, Fail> {
    let mut right = strand_of(alloc, program, within(1, size))?;
    match forked(alloc, &mut right, program) {
        Ok(left) => want_behind(left, right, program),
        Err(fault) => {
            drop(right);
            Err(fault)
        }
    }
}

#[test]
fn a_strand_goes_on_with_both_counts_of_its_fork(rt: HostRuntime) -> Result<(), Fail> {
    assert!(rt; want_after_join(rt.alloc(), 3)? == Want::Done);
    assert!(rt; want_after_join(rt.alloc(), 2)? == Want::Fault(FaultKind::Size));
    Ok(())
}

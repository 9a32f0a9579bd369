ghost use Rattle.std.specs.Prelude.{IfOk, OnOk};
ghost use Rattle.cw_job.specs.Jobs.{TakesWords};
ghost use Rattle.cw_serial.specs.InMemory.{Runs};
ghost use Rattle.cw_strand.specs.Programs.{IsCompiled};

use cw_base::Seq;
use cw_compile::compile;
use cw_serial::{Limits, Machine, Name, Picks, Program, SerialEnd, serial, takes_words};
use cw_text::read_program;
use std::alloc::Global;
use std::process::Abort;
use std::test::Fail;

const LIMITS: Limits = Limits {
    fuel: 9,
    size: 9,
    aborts: 1,
    strands: 1,
    moves: 1,
};

const fn name(parent: u32, fork: u32, right: bool) -> Name {
    Name {
        parent,
        fork,
        right,
    }
}

// One block, in which each of two strands adds one to a cell.
const BOTH: &str = "cell c; fn main() { atomic { spawn { c = c + 1; } c = c + 1; } }";

pub fn program(alloc: Global, text: &str) -> Result<Program, Fail>
    ensures words { IfOk result (λ p. TakesWords p 0) }
    ensures compiled { IfOk result (λ p. IsCompiled p) }
{
    let read = read_program(alloc, text.as_bytes())?;
    let compiled = compile(alloc, &read);
    drop(read);
    let program = compiled?;
    if takes_words(&program, 0) {
        Ok(program)
    } else {
        drop(program);
        Err("main asks for words".into())
    }
}

// Makes picks of these strand numbers, if the root forks once.
fn picks_of(alloc: Global, list: &[u32]) -> Result<Picks, Fail> {
    let names = [name(0, 0, false), name(0, 1, false), name(0, 1, true)];
    Ok(Picks {
        names: Seq::from_vec(names.to_vec(alloc)?),
        list: Seq::from_vec(list.to_vec(alloc)?),
        last: 0,
    })
}

fn shown(alloc: Global, end: &SerialEnd) -> Result<String, Fail> {
    Ok(match end {
        SerialEnd::Finished { memory, outputs } => {
            let memory = memory.as_slice();
            let outputs = outputs.as_slice();
            format!(in alloc; "Finished {memory:?} {outputs:?}")?
        }
        SerialEnd::Fault { kind, .. } => format!(in alloc; "Fault {kind:?}")?,
        SerialEnd::Stuck { place } => format!(in alloc; "Stuck {place}")?,
        _ => String::new(alloc),
    })
}

// Returns the end that these picks of a program lead to.
fn led_to(alloc: Global, program: &Program, limits: Limits, list: &[u32]) -> Result<String, Fail>
    requires { TakesWords program.now 0 }
{
    let picks = picks_of(alloc, list)?;
    let end = serial(alloc, program, &[], limits, &picks);
    drop(picks);
    let end = end?;
    let said = shown(alloc, &end);
    drop(end);
    said
}

// The same for the text of a program.
fn ended(alloc: Global, text: &str, limits: Limits, list: &[u32]) -> Result<String, Fail> {
    let program = program(alloc, text)?;
    let said = led_to(alloc, &program, limits, list);
    drop(program);
    said
}

#[test]
fn picks_lead_to_ends(rt: HostRuntime) -> Result<(), Fail> {
    let table: [(&[u32], &str); 3] = [
        (&[0, 1, 2, 1, 2, 0], "Finished [1] []"),
        (&[0, 1, 1, 2, 2, 0], "Finished [2] []"),
        (&[0, 1, 0], "Stuck 2"),
    ];
    for (list, wanted) in table {
        let end = ended(rt.alloc(), BOTH, LIMITS, list)?;
        assert!(rt; end.as_str() == wanted);
    }
    Ok(())
}

const SPAWNED: &str =
    "language 2; cell c; cell d; fn main() { atomic { spawn { c = 1; } d = 2; cancel; } }";

// Programs that cancel a block, with their size and the picks that bring each to its end.
const CANCELS: [(&str, u32, &[u32], &str); 9] = [
    (
        "language 2; cell c = 5; fn main() { atomic { c = 9; out c; cancel; out 1; } out c; }",
        9,
        &[0; 9],
        "Finished [5] [9, 5]",
    ),
    (
        "language 2; cell c; fn main() { atomic { c = 1; atomic { c = 2; cancel; } out c; } }",
        99,
        &[0; 10],
        "Finished [1] [1]",
    ),
    (
        "language 2; cell c; cell d; fn main() { atomic { c = 1; atomic { d = 2; cancel; } cancel; } }",
        99,
        &[0; 11],
        "Finished [0, 0] []",
    ),
    (
        "language 2; cell a[3] = 4; cell b; fn main() { atomic { b = 1; a[2] = 7; a[0] = a[2]; a[2] = 8; let x = a[1]; cancel; } }",
        99,
        &[0; 12],
        "Finished [4, 4, 4, 0] []",
    ),
    (
        "language 2; cell c; fn main() { atomic { let x = c; cancel; } }",
        99,
        &[0; 4],
        "Finished [0] []",
    ),
    (
        "language 2; cell c; fn main() { let x = 3; atomic { let y = 1; x = x + y; c = 7; if x { let z = 9; x = z; cancel; } x = 0; } out x; let y = 2; out y; }",
        99,
        &[0; 7],
        "Finished [0] [9, 2]",
    ),
    (
        "language 2; cell c; fn main() { let i = 0; atomic { while 1 { i = i + 1; c = i; if i == 3 { cancel; } } } out i; }",
        99,
        &[0; 8],
        "Finished [0] [3]",
    ),
    (SPAWNED, 7, &[0, 1, 2, 0, 0, 0, 0], "Finished [0, 0] []"),
    (SPAWNED, 6, &[0, 1, 2, 0, 0], "Fault Size"),
];

#[test]
fn blocks_are_given_up(rt: HostRuntime) -> Result<(), Fail> {
    for (source, size, list, wanted) in CANCELS {
        let limits = Limits {
            fuel: 99,
            size,
            ..LIMITS
        };
        let end = ended(rt.alloc(), source, limits, list)?;
        assert!(rt; end.as_str() == wanted);
    }
    Ok(())
}

// Writes the want of each of the three strands.
fn standing(alloc: Global, machine: &Machine) -> Result<String, Fail> {
    let wants = [machine.at(0), machine.at(1), machine.at(2)];
    Ok(format!(in alloc; "{wants:?}")?)
}

// Picks a strand, and then writes the wants of all three.
fn picked(
    alloc: Global,
    program: &Program,
    machine: &mut Machine,
    strand: u32,
) -> Result<String, Fail>
    requires { Runs program.now machine.old }
    ensures { OnOk result (Runs program.now machine.new) }
{
    if machine.pick(program, strand)? {
        standing(alloc, machine)
    } else {
        Err("no pick".into())
    }
}

// Asserts that an update of that program is lost on this machine.
fn loses_an_update(
    rt: &impl Abort,
    alloc: Global,
    program: &Program,
    machine: &mut Machine,
) -> Result<(), Fail>
    requires { Runs program.now machine.old }
{
    let names = [name(0, 0, false), name(0, 1, false), name(0, 1, true)];
    assert!(rt; machine.names() == &names[..1]);
    let table: [(u32, &str); 6] = [
        (0, "[None, Some(Load(0)), Some(Load(0))]"),
        (1, "[None, Some(Store(0, 1)), Some(Load(0))]"),
        (2, "[None, Some(Store(0, 1)), Some(Store(0, 1))]"),
        (1, "[None, None, Some(Store(0, 1))]"),
        (2, "[Some(End), None, None]"),
        (0, "[None, None, None]"),
    ];
    for (strand, wanted) in table {
        let wants = picked(alloc, program, machine, strand)?;
        assert!(rt; wants.as_str() == wanted);
    }
    assert!(rt; machine.names() == names.as_slice());
    assert!(rt; machine.memory() == [1].as_slice());
    Ok(())
}

// The same on a machine of its own.
fn update_is_lost(rt: &impl Abort, alloc: Global, program: &Program) -> Result<(), Fail>
    requires { TakesWords program.now 0 }
{
    let mut machine = Machine::new(alloc, program, &[], LIMITS)?;
    let lost = loses_an_update(rt, alloc, program, &mut machine);
    drop(machine);
    lost
}

#[test]
fn an_update_is_lost_step_by_step(rt: HostRuntime) -> Result<(), Fail> {
    let program = program(rt.alloc(), BOTH)?;
    let lost = update_is_lost(&rt, rt.alloc(), &program);
    drop(program);
    lost
}

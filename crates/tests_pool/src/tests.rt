ghost use Rattle.std.specs.Prelude.{IfOk};
ghost use Rattle.cw_job.specs.Jobs.{TakesWords};
ghost use Rattle.cw_strand.specs.Programs.{IsCompiled};

use cw_code::{Limits, Program};
use cw_compile::compile;
use cw_job::takes_words;
use cw_text::read_program;
use std::alloc::Global;
use std::test::Fail;

mod board;
mod deques;
mod fickle;
mod gates;
mod pairs;
mod walks;

// Limits with enough attempts and columns that none is met.
const WIDE: Limits = Limits {
    fuel: 100_000,
    size: 1_000_000,
    aborts: 100_000,
    strands: 1000,
    moves: 1000,
};

const fn up_to(aborts: u32) -> Limits {
    Limits { aborts, ..WIDE }
}

const fn columns(strands: u32) -> Limits {
    Limits { strands, ..WIDE }
}

fn program(alloc: Global, text: &str) -> Result<Program, Fail>
    ensures compiled { IfOk result (λ p. IsCompiled p) }
    ensures words { IfOk result (λ p. TakesWords p 0) }
{
    let tree = read_program(alloc, text.as_bytes())?;
    let compiled = compile(alloc, &tree);
    drop(tree);
    let program = compiled?;
    if takes_words(&program, 0) {
        Ok(program)
    } else {
        drop(program);
        Err("main asks for words".into())
    }
}

// ## Example programs

const LOST: &str = "cell c; fn main() { atomic { spawn { c = c + 1; } c = c + 1; } }";

const OUTER: &str =
    "cell c; fn main() { spawn { atomic { c = 1; } } atomic { atomic { c = 2; } } }";

const ALONE: &str = "cell c; fn main() { spawn { atomic { c = c + 1; } } c = 5; }";

const BEFORE: &str =
    "cell c; cell d; fn main() { spawn { d = 5; } c = 1; sync; atomic { c = c + d; } }";

const INSIDE: &str =
    "cell c; cell d; fn main() { spawn { atomic { spawn { d = 5; } c = 1; sync; d = 1; } } c = 2; }";

const UNDONE: &str =
    "cell a = 7; cell b = 8; cell c; fn main() { spawn { atomic { c = 1; } } atomic { atomic { a = a + 1; } b = b + 1; c = 2; } }";

const FAULTY: &str =
    "cell c; cell d; fn main() { spawn { atomic { c = 1; c = 2; } } atomic { spawn { c = 3; } d = 1 / d; } }";

const GIVEN_UP: &str =
    "language 2; cell c = 5; cell d; fn main() { spawn { atomic { c = 9; d = 1; cancel; } } atomic { d = d + 1; atomic { c = 7; d = c; cancel; } } }";

const GIVEN_UP_BENEATH: &str =
    "language 2; cell a = 1; cell b = 2; fn main() { atomic { spawn { a = 7; } atomic { b = 8; cancel; } sync; cancel; } }";

const COUNTS: &str =
    "cell c; fn main() { let i = 0; while i < 40 { spawn { atomic { c = c + 1; } } i = i + 1; } }";

const TREES: &str =
    "cell c; fn f(n) { if n { spawn { f(n - 1); } atomic { c = c + 1; f(n - 1); } } out n; } fn main() { f(3); }";

const LEFTWARDS: &str =
    "cell c; fn f(n) { if n { spawn { f(n - 1); } c = c + 1; } } fn main() { f(10000); }";

const RIGHTWARDS: &str =
    "cell c; fn f(n) { if n { spawn { c = c + 1; } f(n - 1); } } fn main() { f(9990); }";

const NESTED: &str =
    "cell c; cell d; fn f(n) { if n { atomic { spawn { c = c + 1; } f(n - 1); } } else { d = d + 1; } } fn main() { f(200); }";

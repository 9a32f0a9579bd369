ghost use Rattle.std.specs.Prelude.{◌≡◌, ◌++◌, IfOk, IsSome, OnOk, string_bytes};
ghost use Rattle.cw_code.specs.Table.{row_at, operator_name, effect_name};
ghost use Rattle.cw_code.specs.Printed.{instruction_line, lines_from, HaveRows};

use crate::{Code, Effect, Instr, Operands, Operator, Row, table};
use cw_base::OutOfMemory;
use std::alloc::Global;
use std::fmt::Write;

fn operator_name(operator: Operator) -> &'static str
    ensures { result.now ≡ operator_name operator }
{
    match operator {
        Operator::Add => "add",
        Operator::Sub => "sub",
        Operator::Mul => "mul",
        Operator::Div => "div",
        Operator::Rem => "rem",
        Operator::Neg => "neg",
        Operator::Not => "not",
        Operator::Eq => "eq",
        Operator::Ne => "ne",
        Operator::Lt => "lt",
        Operator::Le => "le",
        Operator::Gt => "gt",
        Operator::Ge => "ge",
    }
}

fn effect_name(effect: Effect) -> &'static str
    ensures { result.now ≡ effect_name effect }
{
    match effect {
        Effect::Push => "push",
        Effect::Local => "local",
        Effect::Set => "set",
        Effect::Load => "load",
        Effect::LoadAt => "loadx",
        Effect::Store => "store",
        Effect::StoreAt => "storex",
        Effect::Lift(operator) | Effect::Join(operator) => operator_name(operator),
        Effect::Jump => "jump",
        Effect::JumpZero => "jumpz",
        Effect::Call => "call",
        Effect::Ret => "ret",
        Effect::Drop => "drop",
        Effect::Out => "out",
        Effect::Begin => "begin",
        Effect::End => "end",
        Effect::Fork => "fork",
        Effect::Sync => "sync",
        Effect::Done => "done",
        Effect::Tick => "tick",
        Effect::Cancel => "cancel",
    }
}

// The line of an instruction, given its row in the table.
fn row_line(alloc: Global, place: usize, row: &Row, instr: &Instr) -> Result<String, OutOfMemory>
    requires { row_at instr.now.op ≡ Some row.now }
    ensures { IfOk result (λ text. string_bytes text ≡ instruction_line place instr.now) }
{
    let name = effect_name(row.effect);
    match row.operands {
        Operands::Zero => Ok(format!(in alloc; "{place} {name}\n")?),
        Operands::One => Ok(format!(in alloc; "{place} {name} {}\n", instr.a)?),
        Operands::Two => Ok(format!(in alloc; "{place} {name} {} {}\n", instr.a, instr.b)?),
    }
}

fn push_line(text: &mut Vec<u8>, place: usize, instr: &Instr) -> Result<(), OutOfMemory>
    requires { IsSome (row_at instr.now.op) }
    ensures { OnOk result (text.new.items ≡ text.old.items ++ instruction_line place instr.now) }
{
    match table::row_at(instr.op) {
        None => unreachable!(),
        Some(row) => {
            let written = row_line(*text.allocator(), place, &row, instr)?;
            text.extend_from_slice(written.as_bytes())?;
            Ok(())
        }
    }
}

/// Returns the text of code: a line for each instruction.
pub fn print_code(alloc: Global, code: &Code) -> Result<Vec<u8>, OutOfMemory>
    requires { HaveRows code.now.instrs }
    ensures { IfOk result (λ text. text.items ≡ lines_from 0 code.now.instrs) }
{
    let mut text = Vec::new(alloc);
    for (place, instr) in code.instrs.as_slice().iter().enumerate() {
        push_line(&mut text, place, instr)?;
    }
    Ok(text)
}

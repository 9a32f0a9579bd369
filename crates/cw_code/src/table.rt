ghost use Rattle.std.specs.Prelude.{◌≡◌, ◌-◌, ◌<◌, None, slice_get};
ghost use Rattle.cw_code.specs.Table.{row_at, effect_at};

use crate::effects::{Effect, Operator};

macro_rules! row {
    (push) => { Effect::Push };
    (local) => { Effect::Local };
    (set) => { Effect::Set };
    (load) => { Effect::Load };
    (loadx) => { Effect::LoadAt };
    (store) => { Effect::Store };
    (storex) => { Effect::StoreAt };
    (add) => { Effect::Join(Operator::Add) };
    (sub) => { Effect::Join(Operator::Sub) };
    (mul) => { Effect::Join(Operator::Mul) };
    (div) => { Effect::Join(Operator::Div) };
    (rem) => { Effect::Join(Operator::Rem) };
    (neg) => { Effect::Lift(Operator::Neg) };
    (not) => { Effect::Lift(Operator::Not) };
    (eq) => { Effect::Join(Operator::Eq) };
    (ne) => { Effect::Join(Operator::Ne) };
    (lt) => { Effect::Join(Operator::Lt) };
    (le) => { Effect::Join(Operator::Le) };
    (gt) => { Effect::Join(Operator::Gt) };
    (ge) => { Effect::Join(Operator::Ge) };
    (jump) => { Effect::Jump };
    (jumpz) => { Effect::JumpZero };
    (call) => { Effect::Call };
    (ret) => { Effect::Ret };
    (drop) => { Effect::Drop };
    (out) => { Effect::Out };
    (begin) => { Effect::Begin };
    (end) => { Effect::End };
    (fork) => { Effect::Fork };
    (sync) => { Effect::Sync };
    (done) => { Effect::Done };
    (tick) => { Effect::Tick };
    (cancel) => { Effect::Cancel };
}

/// A row for each instruction.
macro_rules! rows {
    ($($name:ident $operands:ident),*) => {
        [$(Row { operands: Operands::$operands, effect: row!($name) }),*]
    };
}

/// How many operands an instruction has: none, `a`, or `a` and `b`.
#[derive(Clone, Copy, PartialEq, Eq, Debug)]
pub enum Operands {
    Zero,
    One,
    Two,
}

/// A row of the table: how many operands an instruction has, and what it does.
#[derive(Clone, Copy, PartialEq, Eq, Debug)]
pub struct Row {
    pub operands: Operands,
    pub effect: Effect,
}

/// The instructions, from number 1 on.
pub const TABLE: [Row; 33] =
    rows!(push One, local One, set One, load One, loadx Two, store One, storex Two, add Zero, sub Zero, mul Zero, div Zero, rem Zero, neg Zero, not Zero, eq Zero, ne Zero, lt Zero, le Zero, gt Zero, ge Zero, jump One, jumpz One, call One, ret Zero, drop Zero, out Zero, begin Zero, end Zero, fork One, sync Zero, done Zero, tick Zero, cancel Zero);

/// The row with the number `op` in a table that counts from 1.
pub fn look_up<const N: usize>(rows: &[Row; N], op: u8) -> Option<Row>
    ensures found { 0 < op → result ≡ slice_get rows.now (op - 1) }
    ensures none { op ≡ 0 → result ≡ None }
{
    if op == 0 {
        return None;
    }
    rows.get(op as usize - 1).copied()
}

/// The row of the instruction with the number `op`.
pub fn row_at(op: u8) -> Option<Row>
    ensures { result ≡ row_at op }
{
    look_up(&TABLE, op)
}

/// What the instruction with the number `op` does.
pub fn effect_at(op: u8) -> Option<Effect>
    ensures { result ≡ effect_at op }
{
    match row_at(op) {
        Some(row) => Some(row.effect),
        None => None,
    }
}

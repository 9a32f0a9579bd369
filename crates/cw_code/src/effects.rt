/// The arithmetic of an instruction. `Neg` and `Not` have one operand, the others two.
#[derive(Clone, Copy, PartialEq, Eq, Debug)]
pub enum Operator {
    Add,
    Sub,
    Mul,
    Div,
    Rem,
    Neg,
    Not,
    Eq,
    Ne,
    Lt,
    Le,
    Gt,
    Ge,
}

/// What an instruction does.
#[derive(Clone, Copy, PartialEq, Eq, Debug)]
pub enum Effect {
    Push,
    Local,
    Set,
    Load,
    LoadAt,
    Store,
    StoreAt,
    Lift(Operator),
    Join(Operator),
    Jump,
    JumpZero,
    Call,
    Ret,
    Drop,
    Out,
    Begin,
    End,
    Fork,
    Sync,
    Done,
    Tick,
    Cancel,
}

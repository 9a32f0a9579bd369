use cw_base::Text;

/// The syntax tree of a program.
#[derive(Drop)]
pub struct Ast {
    /// 2 if the text began with `language 2;`, otherwise 1.
    pub language: u32,
    pub items: Vec<Item>,
}

#[derive(Drop)]
pub enum Item {
    /// A cell: its name and the name's line, its number of elements (0 for a plain cell), and its initial value.
    Cell {
        name: Text,
        line: u32,
        len: u64,
        init: i64,
    },
    /// A function: its name and the name's line, its parameters, its body.
    Func {
        name: Text,
        line: u32,
        params: Vec<Word>,
        body: Vec<Stmt>,
    },
}

/// A name and its line.
#[derive(Drop)]
pub struct Word {
    pub name: Text,
    pub line: u32,
}

#[derive(Drop)]
pub enum Stmt {
    Let {
        name: Word,
        value: Expr,
    },
    Assign {
        name: Word,
        value: Expr,
    },
    /// An assignment to an element of an array.
    AssignAt {
        name: Word,
        at: Expr,
        value: Expr,
    },
    /// A call whose value is dropped.
    Call {
        name: Word,
        args: Vec<Expr>,
    },
    Out(Expr),
    /// A choice: `then` is done if `test` holds, otherwise `other`.
    If {
        test: Expr,
        then: Vec<Stmt>,
        other: Vec<Stmt>,
    },
    /// A loop: its body is done over and over, as long as its test holds.
    While {
        test: Expr,
        body: Vec<Stmt>,
    },
    /// An atomic block.
    Atomic(Vec<Stmt>),
    /// Work for a strand of its own, beside what comes after it.
    Spawn(Vec<Stmt>),
    /// Waits for the work that was spawned in the innermost block that waits at its end.
    Sync,
    /// Gives up the innermost atomic block and ends it: the values from before its writes are written back. `line` is
    /// the line of the keyword.
    Cancel {
        line: u32,
    },
    /// The end of a function, with the line of the keyword and the function's value.
    Return {
        line: u32,
        value: Expr,
    },
}

#[derive(Drop)]
pub enum Expr {
    Number(i64),
    Name(Word),
    /// An element of an array.
    At {
        name: Word,
        at: Box<Expr>,
    },
    /// The value of a function.
    Call {
        name: Word,
        args: Vec<Expr>,
    },
    Unary {
        op: Op,
        of: Box<Expr>,
    },
    Binary {
        op: Op,
        left: Box<Expr>,
        right: Box<Expr>,
    },
}

/// An operator. `Neg` and `Not` have one operand, the others two.
#[derive(Clone, Copy, PartialEq, Eq, Debug)]
pub enum Op {
    Add,
    Sub,
    Mul,
    Div,
    Rem,
    Neg,
    Not,
    Eq,
    Ne,
    Lt,
    Le,
    Gt,
    Ge,
}

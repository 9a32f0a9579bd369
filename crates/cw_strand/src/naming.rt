/// What is wrong with a name.
#[derive(Clone, Copy, PartialEq, Eq, Debug)]
pub enum NameKind {
    /// Nothing with this name is declared or visible.
    Unknown = 1,
    /// The name is already taken.
    Twice = 2,
    /// A call whose number of arguments is not the function's number of parameters.
    WrongCount = 3,
    /// There is no function `main`. Its line is 0.
    NoMain = 4,
    /// A `return` inside an `atomic` or `spawn` block of its function.
    ReturnInside = 5,
    /// The cell that brings the number of elements over 65,536.
    TooManyCells = 6,
    /// An index on something that is no array, or an array without an index.
    NotACell = 7,
    /// The name of a function that is read or assigned.
    NotALocal = 8,
    /// A `cancel` that is in no `atomic` block of its function, or in a `spawn` block within the innermost such block.
    CancelOutside = 9,
}

/// The innermost `atomic` or `spawn` block of its function around a statement.
#[derive(Clone, Copy, PartialEq, Eq, Debug)]
pub enum Around {
    Neither,
    Atomic,
    Spawn,
}

/// The first naming fault of a program, with the line of its name.
#[derive(Clone, Copy, PartialEq, Eq, Debug)]
pub struct NameFault {
    pub kind: NameKind,
    pub line: u32,
}

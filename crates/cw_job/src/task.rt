use cw_code::{Limits, Program};

/// What is run: a program, with the words of its command and its limits.
#[derive(Drop)]
pub struct Task<'a> {
    pub program: &'a Program,
    pub words: &'a [i64],
    pub limits: Limits,
}

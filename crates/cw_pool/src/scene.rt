ghost use Rattle.std.specs.Prelude.{◌≡◌, length};
ghost use Rattle.cw_strand.specs.Names.{first_memory};

use crate::{Memo, RunName};
use cw_code::Program;
use cw_log::SharedBoard;
use cw_pair::Pairs;
use std::alloc::Global;
use std::marker::PhantomData;

/// What all strands of a run share: the board and the program.
#[derive(Drop)]
pub struct Scene<'a, B: SharedBoard, J: RunName> {
    pub alloc: Global,
    pub board: &'a B,
    pub program: &'a Program,
    /// The most attempts that a block or an access may have.
    pub attempts: u32,
    pub pairs: &'a Pairs<Memo<B::Token>, J>,
    pub of: PhantomData<J>,
    pub ghost program_of: { program.now ≡ J.job.program },
    pub ghost attempts_of: { attempts ≡ J.job.limits.aborts },
    pub ghost budget_of: { B.budget board.now ≡ J.job.limits.aborts },
    pub ghost cells_of: { B.cells board.now ≡ length (first_memory J.job.program.cells) },
}

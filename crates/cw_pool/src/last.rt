//! How a run ends.
ghost use Rattle.std.specs.Prelude.{◌≡◌, IsTrue, []};
ghost use Rattle.cw_pool.specs.Ends.{MayEnd};
ghost use Rattle.cw_pool.specs.Tasks.{IsRunning};
ghost use Rattle.cw_pool.specs.declared.task.Base.TheVariants as bottom;
ghost use Rattle.cw_pool.specs.declared.task.Mode.TheVariants as how;

use crate::{Base, Below, Mode, RunName};
use cw_body::Body;
use cw_log::SharedBoard;
use std::marker::{Model, PhantomData};

/// The root's token, to which all others were joined.
#[derive(Drop)]
pub struct Ended<B: SharedBoard, J: RunName> {
    pub(crate) token: B::Token,
    /// Whether main came to its end.
    pub(crate) is_whole: bool,
    pub(crate) of: PhantomData<J>,
}

impl<B: SharedBoard, J: RunName> Model for Ended<B, J> {
    ghost use Rattle.std.specs.Prelude.{◌≡◌, ℕ, IsTrue, false};
    ghost use Rattle.cw_pool.specs.Ends.{IsWorked};

    ghost Value = { ℕ };

    ghost view = { λ e. 0 };

    ghost invariant = { λ e. IsWorked J.job (B.of e.token) × (IsTrue e.is_whole → (B.of e.token).told ≡ false) };
}

fn is_going(mode: Mode) -> bool
    ensures { IsTrue result → mode ≡ how.Goes }
{
    match mode {
        Mode::Goes => true,
        _ => false,
    }
}

/// Ends the run after the strand of main.
pub(crate) fn finish_run<B: SharedBoard, J: RunName>(
    token: B::Token,
    body: Body,
    mode: Mode,
    below: Vec<Below<B::Token, J>>,
    base: Base<B::Token, J>,
) -> Ended<B, J>
    requires task { IsRunning J.job B.of (B.of token) body mode below.items base }
    requires end { MayEnd mode (B.of token) body }
    requires alone { below.items ≡ [] }
    requires root { base ≡ bottom.Root }
{
    let is_whole = is_going(mode);
    drop(body);
    drop(below);
    drop(base);
    let last = Ended {
        token,
        is_whole,
        of: PhantomData,
    };
    last
}

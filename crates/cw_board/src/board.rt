//! A board, and its root's token.
ghost use Rattle.std.specs.Prelude.{◌≡◌, ◌<◌, IfOk, length};

use cw_base::OutOfMemory;
use cw_code::Limits;
use cw_steps::{Shared, StrandToken};
use cw_tree::Node;
use std::alloc::Global;

/// A board that strands share.
#[derive(Drop)]
pub struct Board {
    pub(crate) shared: Shared,
}

impl Board {
    ghost use Rattle.cw_log.specs.Tokens.{root_token};
    ghost use Rattle.cw_steps.specs.Stands.{token_of};
    ghost use Rattle.cw_steps.specs.Views.{key_of};
    ghost use Rattle.cw_board.specs.Boards.{budget_of, cells_in, IsOf};

    /// Makes a board with the first values `init` for its cells and as many columns as `limits` say, and the root's token.
    pub fn new(
        alloc: Global,
        init: &[i64],
        limits: Limits,
    ) -> Result<(Board, StrandToken), OutOfMemory>
        requires { 0 < limits.strands }
        ensures of { IfOk result (λ r. IsOf r.0 r.1) }
        ensures board { IfOk result (λ r. (cells_in r.0 ≡ length init.now) × (budget_of r.0 ≡ limits.aborts)) }
        ensures key { IfOk result (λ r. key_of r.0.shared ≡ record { first = init.now; columns = limits.strands; aborts = limits.aborts }) }
        ensures token { IfOk result (λ r. token_of r.1 ≡ root_token) }
    {
        let (shared, token) = Shared::new(alloc, init, limits)?;
        Ok((Board { shared }, token))
    }

    /// Returns the node of the token's log beneath which its next node goes.
    pub fn place(&self, token: &StrandToken) -> u32
        ensures { result ≡ (token_of token.now).place }
    {
        token.place()
    }

    /// Returns the nodes of the token's own log.
    pub fn nodes<'a>(&self, token: &'a StrandToken) -> &'a [Node]
        ensures { result.now ≡ (token_of token.now).own.nodes }
    {
        token.nodes()
    }
}

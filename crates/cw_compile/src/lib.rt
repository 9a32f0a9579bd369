//! Programs from syntax trees: the naming rules, and the compilation. Use `compile` on what the reader of `cw_text` returned.
//! Contracts cite `specs/NamingRules/Scopes.antt` (what a result says of a naming fault) and, from `cw_strand`, what a
//! compiled program is. Private ones cite `specs/Emitted.antt` (what was emitted so far), the rest of
//! `specs/NamingRules` (what items declare, what is visible), and `specs/Named.antt` with `specs/Numbered.antt` (names
//! in memory).
#![tactic(auto)]

mod compiling;
mod elements;
mod emitter;
mod functions;
mod instructions;
mod lengths;
mod listing;
mod locals;
mod names;
mod naming;
mod refusal;
mod slots;

pub use compiling::compile;
pub use cw_strand::{NameFault, NameKind};
pub use refusal::NameRefusal;

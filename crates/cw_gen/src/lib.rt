//! The program of a load: a large valid input, made from a number. Use it to measure a run, or to try one without a source.
//! Contracts cite `specs/Load.antt` (the tree of a load) and `specs/Worked.antt` (what small loads draw, and how they are grouped).
#![tactic(auto)]

ghost use Rattle.std.specs.Prelude.{◌≡◌, ◌≤◌, ℕ, None, false};
ghost use Rattle.cw_text.specs.Cancels.{has_cancel};
ghost use Rattle.cw_strand.specs.Meaning.{MainTakes};
ghost use Rattle.cw_strand.specs.Names.{naming_fault};
ghost use Rattle.cw_gen.specs.Load.{load_tree};
ghost use Rattle.cw_gen.specs.Worked.{Loads};

mod load;
mod pieces;

pub use load::load_program;

/// Examples: what small loads draw, and how they are grouped.
pub fn worked_loads()
    ensures { Loads }
{}

/// No load has a naming fault.
pub fn loads_have_no_fault()
    ensures { (n : ℕ) → n ≤ 20000 → naming_fault (load_tree n) ≡ None }
{}

/// No load has a cancel.
pub fn loads_have_no_cancel()
    ensures { (n : ℕ) → has_cancel (load_tree n) ≡ false }
{}

/// The main function of a load has no parameters.
pub fn main_of_loads()
    ensures { (n : ℕ) → MainTakes (load_tree n) 0 }
{}

//! What a strand means: which names a program may use, what a strand wants next, what an answer makes of it, and which
//! strands a fork and a join make of it. Use it to move a strand in memory, or to say in a contract what strands do.
//! Contracts cite `specs/Strands.antt` (the law of strands, which all layers above take as a parameter) and
//! `specs/Running.antt` (which makes a law from steps). The law is given twice: by `specs/Meaning.antt` from the syntax
//! tree and by `specs/Coded.antt` from compiled code. `specs/Compilation.antt` is the code of a tree.
//! `specs/Names.antt` has the naming rules, `specs/Arithmetic.antt` the operators, `specs/Pasts.antt` what it means
//! that two laws want the same, `specs/Saving.antt` what is inside a block and what a strand needs to go back to its
//! begin. `specs/Laws.antt` has what holds of strands, `specs/Worked.antt` the worked programs.
#![tactic(auto)]

ghost use Rattle.cw_strand.specs.Laws.{LocalWorkEnds, ForksEnd, EndsOnlyWhenDone, BlocksClose, StrandsAreLawful};
ghost use Rattle.cw_strand.specs.Laws.{CodeIsNeverStuck, StandsOn, VisitedStand, CodeWorkEnds, CodeForksEnd, CodeNamesElements, CodeGivesUpNothing, BeginStaysBelow};
ghost use Rattle.cw_strand.specs.Laws.{BreaksNoRule, CodeHasItsCancels, WantsOfTheSource, CodeEndsOnlyWhenDone, CodeIsLawful, ClosesWithIt};
ghost use Rattle.cw_strand.specs.Pasts.{CanBe, Past, WantTheSame};
ghost use Rattle.cw_strand.specs.Worked.{Arrays, Calls, Choices, Depths, Faults, Outside, Cancels, Traces, Forks, Loops, Returns, Spent, Codes, Endings};
ghost use Rattle.cw_strand.specs.Strands.{Strands};
ghost use Rattle.std.specs.Prelude.{◌↔◌};

mod led;
mod naming;
mod operators;
mod scopes;
mod strand;
mod want;

pub use naming::{Around, NameFault, NameKind};
pub use strand::{Saved, Strand};
pub use want::{Given, Want};

/// Worked programs: their naming faults, their code, and what their strands want, over the syntax and over the code.
pub fn worked_programs()
    ensures faults { Faults }
    ensures outside { Outside }
    ensures cancels { Cancels }
    ensures codes { Codes }
    ensures traces { Traces }
    ensures arrays { Arrays }
    ensures forks { Forks }
    ensures spent { Spent }
    ensures choices { Choices }
    ensures loops { Loops }
    ensures calls { Calls }
    ensures returned { Returns }
    ensures depths { Depths }
{}

/// Over the syntax a strand never goes on by itself for ever: it always reaches a want.
pub fn local_work_ends()
    ensures { LocalWorkEnds }
{}

/// Over the syntax the depth of a strand bounds how many forks and answers follow each other.
pub fn forks_end()
    ensures { ForksEnd }
{}

/// Over the syntax, in a program without a naming fault, a strand is done only if it has done all that it had to do.
/// This also holds for the left strand of a fork. No operand is left over, except main's own value.
pub fn ends_only_when_done()
    ensures ends { EndsOnlyWhenDone }
    ensures worked { Endings }
{}

/// Over the syntax a block ends in the strand that began it. A strand ends only after its own blocks: a right strand at
/// a sync, any other when it is done.
pub fn blocks_close()
    ensures { BlocksClose }
{}

/// Over the syntax the strands of every program without a naming fault keep the law of strands.
pub fn strands_are_lawful()
    ensures { StrandsAreLawful }
{}

/// Over code that breaks no rule, no strand ever lacks what it needs. Each of its functions is at a place of the code,
/// with the locals and as many operands as the rules say of that place, and this stays true wherever the strand goes.
pub fn code_is_never_stuck()
    ensures lacks { CodeIsNeverStuck }
    ensures on { StandsOn }
    ensures visited { VisitedStand }
{}

/// Over code that breaks no rule, no strand goes on by itself for ever.
pub fn code_work_ends()
    ensures { CodeWorkEnds }
{}

/// Over code that breaks no rule, the depth of a strand bounds how many forks and answers follow each other.
pub fn code_forks_end()
    ensures { CodeForksEnd }
{}

/// Over code that breaks no rule, a strand loads and stores only elements of the cells.
pub fn code_names_elements()
    ensures { CodeNamesElements }
{}

/// Over code that breaks no rule and has no cancel, no strand gives up a block.
pub fn code_gives_up_nothing()
    ensures { CodeGivesUpNothing }
{}

/// Over code that breaks no rule, what was below the begin of a block is still there for each strand inside the block.
/// So each may go back to the begin, with what was kept there.
pub fn begin_stays_below()
    ensures { BeginStaysBelow }
{}

/// The code of a program without a naming fault breaks no rule.
pub fn compiled_code_breaks_no_rule()
    ensures { BreaksNoRule }
{}

/// The code of a program has a cancel exactly if its text has one.
pub fn compiled_code_has_its_cancels()
    ensures { CodeHasItsCancels }
{}

/// Compiled code wants what the source wants: whatever has happened to a strand, it is at the same want over the syntax
/// and over the code.
pub fn compiled_code_wants_the_same()
    ensures { WantsOfTheSource }
{}

/// A strand of compiled code is done only if the strand of the source with the same past has done all that it had to do.
pub fn code_ends_only_when_done()
    ensures { CodeEndsOnlyWhenDone }
{}

/// The strands of the code of every program without a naming fault keep the law of strands.
pub fn code_is_lawful()
    ensures { CodeIsLawful }
{}

/// If two laws of strands want the same, a past that can be over one can be over the other, so the other wants the same too.
pub fn the_same_can_be<A, B>()
    ensures pasts { (s : Strands A) (t : Strands B) → WantTheSame s t → (p : Past) → CanBe s p ↔ CanBe t p }
    ensures back { (s : Strands A) (t : Strands B) → WantTheSame s t → WantTheSame t s }
{}

/// If two laws of strands want the same and blocks close over one, they close over the other.
pub fn closes_with_it<A, B>()
    ensures { (s : Strands A) (t : Strands B) → ClosesWithIt s t }
{}

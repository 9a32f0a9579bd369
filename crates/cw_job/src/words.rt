ghost use Rattle.std.specs.Prelude.{◌↔◌, IsTrue};
ghost use Rattle.cw_job.specs.Jobs.{TakesWords};

use cw_code::Program;

/// Whether the program's main has `words` parameters. A run takes as many words.
pub fn takes_words(program: &Program, words: usize) -> bool
    ensures { IsTrue result ↔ TakesWords program.now words }
{
    match program.code.code().func(program.main as u64) {
        Some(func) => func.params as usize == words,
        None => false,
    }
}

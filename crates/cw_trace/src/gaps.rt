ghost use Rattle.std.specs.Prelude.{◌≡◌, ◌<◌, ◌+◌, IfOk, replicate, slice_index, slice_set, vec_len};

use cw_base::OutOfMemory;
use cw_order::Steps;
use std::alloc::Global;
use std::marker::Model;
use std::sync::ledger::Ledger;

/// One word for the gap of each strand's column: the begin stamp of the outermost pending block that was begun in the gap, or 0.
#[derive(Drop)]
pub struct Gaps {
    pub words: Vec<u64>,
}

impl Gaps {
    /// Returns the gap words of `m` strands, each 0.
    pub fn with_strands(alloc: Global, m: u32) -> Result<Gaps, OutOfMemory>
        ensures { IfOk result (λ g. g.words.items ≡ replicate m 0) }
    {
        Ok(Gaps {
            words: vec![in alloc; 0; m as usize]?,
        })
    }

    /// Sets the word of `gap`. Does not allocate.
    pub fn set(&mut self, gap: u32, word: u64)
        requires { gap < vec_len self.old.words }
        ensures { self.new.words.items ≡ slice_set self.old.words.items gap word }
    {
        self.words[gap as usize] = word;
    }

    /// Returns what a query sees of the gap words.
    pub fn reader(&self) -> GapReader<'_>
        ensures { result ≡ self.now.words.items }
    {
        GapReader { gaps: self }
    }
}

/// Gap words as a query sees them: any number may be read, with a tick for each read. A number that names nothing reads as 0.
#[derive(Drop)]
pub struct GapReader<'a> {
    gaps: &'a Gaps,
}

impl<'a> Model for GapReader<'a> {
    ghost use Rattle.std.specs.Prelude.{ℕ, List};

    ghost Value = { List ℕ };

    ghost view = { λ r. r.gaps.now.words.items };
}

impl<'a> GapReader<'a> {
    /// Returns the word of `gap`.
    pub fn word_of<L: Ledger>(&self, gap: u32, looks: &mut Steps<L>) -> u64
        ensures value { result ≡ slice_index self.now gap }
        ensures cost { looks.new ≡ looks.old + 1 }
    {
        looks.tick();
        match self.gaps.words.get(gap as usize) {
            Some(word) => *word,
            None => 0,
        }
    }
}

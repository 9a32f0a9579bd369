ghost use Rattle.std.specs.Prelude.{◌≡◌, IfOk, OnOk, OnErr, IsOk, IsTrue};
ghost use Rattle.cw_open.specs.Runs.{IsRun, at_once};
ghost use Rattle.cw_core.specs.Laws.{HasChains, IsCore};
ghost use Rattle.cw_core.specs.Events.{fits, after_event, reply_to, steps_of, takes_none};

use crate::cores::Core;
use crate::{Event, Reply};
use cw_base::OutOfMemory;

impl Core {
    /// Makes an event that fits, and returns the reply.
    pub fn step(&mut self, event: Event) -> Result<Reply, OutOfMemory>
        requires { IsTrue (fits self.old event) }
        ensures ok { OnOk result (self.new ≡ after_event self.old event) }
        ensures reply { IfOk result (λ r. r ≡ reply_to self.old event) }
        ensures err { OnErr result (self.new ≡ self.old) }
        ensures sure { IsTrue (takes_none event) → IsOk result }
        // the open machine makes exactly the steps that the event stands for, and the core then represents its state
        ensures run { IsRun at_once self.old.machine (steps_of self.old event) }
        ensures stands { IsCore self.new.machine.first self.new }
        ensures chains { HasChains self.new }
    {
        self.hint();
        match event {
            Event::Fork { strand } => self.fork(strand),
            Event::Begin { strand } => self.begin(strand),
            Event::Access {
                strand,
                cell,
                write,
            } => self.access(strand, cell, write),
            Event::Out { strand, value } => self.output(strand, value),
            Event::Cancel { strand } => self.cancel(strand),
            Event::Commit { strand } => {
                self.commit(strand);
                Ok(Reply::Done)
            }
            Event::Roll { strand } => {
                self.roll(strand);
                Ok(Reply::Done)
            }
            Event::Finish { strand, dead } => self.finish(strand, dead),
            Event::Split { fork } => self.split(fork),
            Event::Join { fork } => self.join(fork),
            Event::Stop { halt } => {
                self.stop(halt);
                Ok(Reply::Done)
            }
        }
    }
}

ghost use Rattle.std.specs.Prelude.{◌≡◌, length, IfOk, OnOk};
ghost use Rattle.cw_serial.specs.InMemory.{Runs};
ghost use Rattle.cw_job.specs.Jobs.{Job, TakesWords};
ghost use Rattle.cw_serial.specs.MachineOf.{end_under, machine_of};
ghost use Rattle.cw_serial.specs.Orders.{IsPlay};

use crate::machine::Machine;
use crate::orders::Known;
use crate::{Limits, Name, Picks, Program, SerialEnd};
use cw_base::{OutOfMemory, Seq};
use cw_code::Back;
use cw_strand::Want;
use std::alloc::Global;

/// The machine with one memory, driven by the names of an order. A strand is named by its number there.
#[derive(Drop)]
pub struct Play<'n> {
    alloc: Global,
    machine: Machine,
    known: Known<'n>,
}

impl<'n> Play<'n> {
    ghost use Rattle.std.specs.Prelude.{List};
    ghost use Rattle.cw_tree.specs.declared.picks.Name.{Name as Named};
    ghost use Rattle.cw_serial.specs.Machine.{Machine as State_of, pick_named, machine_shows, steps_down};
    ghost use Rattle.cw_serial.specs.InMemory.{want_before_end};
    ghost use Rattle.cw_serial.specs.Wants.{given_up};
    ghost use Rattle.cw_serial.specs.Orders.{at_named, Plays};
    ghost use Rattle.cw_job.specs.Room.Strands.{StrandState, strands_of_job};

    /// Returns the machine before the first pick.
    pub fn new(
        alloc: Global,
        program: &Program,
        words: &[i64],
        limits: Limits,
        names: &'n [Name],
    ) -> Result<Play<'n>, OutOfMemory>
        requires { TakesWords program.now (length words.now) }
        ensures play { IfOk result (λ play. let job : Job = record { program = program.now; words = words.now; limits = limits } in
            IsPlay job names.now play (machine_of job)) }
        ensures runs { IfOk result (λ play. Runs program.now play.machine) }
    {
        let machine = Machine::new(alloc, program, words, limits)?;
        let known = Known::new(alloc, names)?;
        Ok(Play {
            alloc,
            machine,
            known,
        })
    }

    /// What the memory holds.
    pub fn memory(&self) -> &[i64]
        ensures { (job : Job) (names : List Named) (m : State_of StrandState) → IsPlay job names self.now m → m.memory ≡ result.now }
    {
        self.machine.memory()
    }

    /// Returns what the innermost begun block would put back if it were given up now.
    pub fn given_up(&self) -> Result<Seq<Back>, OutOfMemory>
        ensures { IfOk result (λ list. (job : Job) (names : List Named) (m : State_of StrandState) → IsPlay job names self.now m →
            list ≡ given_up m.since) }
    {
        self.machine.given_up()
    }

    /// What the strand called `name` wants. `None` if it waits for its fork, has ended or was not started, or if the number is no name.
    pub fn at(&mut self, name: u32) -> Result<Option<Want>, OutOfMemory>
        ensures want { IfOk result (λ want. (job : Job) (names : List Named) (m : State_of StrandState) → IsPlay job names self.old m →
            want ≡ want_before_end (strands_of_job job) (at_named job m (steps_down names name))) }
        ensures same { IfOk result (λ want. (job : Job) (names : List Named) (m : State_of StrandState) → IsPlay job names self.old m →
            IsPlay job names self.new m) }
        ensures machine { OnOk result (self.new.machine ≡ self.old.machine) }
    {
        let strand = self.known.number(self.alloc, &self.machine, name)?;
        Ok(self.machine.want_of(strand))
    }

    /// Picks the strand called `name`. Returns false, with the machine as it was, if it cannot be picked. `program` is
    /// the one that the machine was made of. After an error the machine can only be dropped.
    pub fn pick(&mut self, program: &Program, name: u32) -> Result<bool, OutOfMemory>
        requires { Runs program.now self.old.machine }
        ensures picks { IfOk result (λ moved. (job : Job) (names : List Named) (m : State_of StrandState) → job.program ≡ program.now →
            IsPlay job names self.old m →
            Plays job names m (pick_named (strands_of_job job) m (steps_down names name)) moved self.new) }
        ensures runs { OnOk result (Runs program.now self.new.machine) }
    {
        let Some(strand) = self.known.number(self.alloc, &self.machine, name)? else {
            return Ok(false);
        };
        self.machine.pick(program, strand)
    }

    /// Returns the end of the machine after `place` picks, if the last name is `last`.
    pub fn end(self, last: u32, place: u32) -> Result<SerialEnd, OutOfMemory>
        ensures { IfOk result (λ e. (job : Job) (names : List Named) (m : State_of StrandState) → IsPlay job names self.entry m →
            e ≡ machine_shows (strands_of_job job) m names last place) }
    {
        let Play {
            alloc,
            machine,
            mut known,
        } = self;
        let strand = known.number(alloc, &machine, last)?;
        Ok(machine.shown(strand, last, place))
    }
}

/// Returns the end of the machine with one memory under `picks`, whatever they are. More than 4,294,967,295 picks or
/// strands, whose number no end and no name can give, are reported as out of memory.
pub fn serial(
    alloc: Global,
    program: &Program,
    words: &[i64],
    limits: Limits,
    picks: &Picks,
) -> Result<SerialEnd, OutOfMemory>
    requires { TakesWords program.now (length words.now) }
    ensures { IfOk result (λ e. e ≡ end_under (record { program = program.now; words = words.now; limits = limits }) picks.now) }
{
    let Ok(count) = u32::try_from(picks.list.len()) else {
        return Err(OutOfMemory);
    };
    let mut play = Play::new(alloc, program, words, limits, picks.names.as_slice())?;
    for place in 0..count {
        let name = *picks.list.at(place as usize);
        if !play.pick(program, name)? {
            return Ok(SerialEnd::Stuck { place });
        }
    }
    play.end(picks.last, count)
}

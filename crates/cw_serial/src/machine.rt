ghost use Rattle.std.specs.Prelude.{◌≡◌, ◌≤◌, false, Some, None, IfOk, OnOk, length};
ghost use Rattle.cw_tree.specs.declared.picks.Turn.{Turn};
ghost use Rattle.cw_serial.specs.InMemory.{before_end};
ghost use Rattle.cw_serial.specs.Orders.{end_from};

use crate::table::Table;
use crate::undo::Undo;
use crate::{Limits, Name, Program, SerialEnd, Standing, first_memory, value_at};
use cw_base::{OutOfMemory, Seq};
use cw_code::Back;
use cw_strand::{Given, Want};
use std::alloc::Global;

/// The machine with one memory, for a program with the words of its command and its limits. A strand is named by its
/// number among the strands that were started.
#[derive(Drop)]
pub struct Machine {
    alloc: Global,
    memory: Vec<i64>,
    outputs: Vec<i64>,
    strands: Table<Standing>,
    undo: Undo,
}

impl Machine {
    ghost use Rattle.std.specs.Prelude.{List, Option, MatchOption, unwrap_or, if◌then◌else◌};
    ghost use Rattle.cw_serial.specs.declared.ends.SerialEnd.TheVariants as last;
    ghost use Rattle.cw_job.specs.Jobs.{Job, TakesWords};
    ghost use Rattle.cw_job.specs.Room.Strands.{StrandState, strands_of_job};
    ghost use Rattle.cw_serial.specs.StrandTree.{at};
    ghost use Rattle.cw_serial.specs.Machine.{Machine as State_of, steps_down, pick, may_pick, has_ended, end_of_named};
    ghost use Rattle.cw_serial.specs.MachineOf.{machine_of};
    ghost use Rattle.cw_serial.specs.Wants.{given_up};
    ghost use Rattle.cw_serial.specs.TableInMemory.{IsFront, started_at};
    ghost use Rattle.cw_serial.specs.Orders.{IsNamed, at_named};
    ghost use Rattle.cw_serial.specs.InMemory.{IsMachine, Runs, names_in, AreNames, Picks, DoesWant, want_before_end};

    /// Returns the machine before the first pick. If there are more than 4,294,967,295 strands, whose numbers no name
    /// can give, it returns out of memory, and so does each pick.
    pub fn new(
        alloc: Global,
        program: &Program,
        words: &[i64],
        limits: Limits,
    ) -> Result<Machine, OutOfMemory>
        requires { TakesWords program.now (length words.now) }
        ensures machine { IfOk result (λ m. let job : Job = record { program = program.now; words = words.now; limits = limits } in
            IsMachine job m (machine_of job)) }
        ensures runs { IfOk result (λ m. Runs program.now m) }
    {
        let memory = first_memory(alloc, program.cells.as_slice())?;
        let strands = Table::of_main(alloc, program, words, limits)?;
        Ok(Machine {
            alloc,
            memory,
            outputs: Vec::new(alloc),
            strands,
            undo: Undo::new(alloc),
        })
    }

    /// The names of the strands that were started, in the order in which they were. The position of a name is the strand's number.
    pub fn names(&self) -> &[Name]
        ensures items { result.now ≡ names_in self.now }
        ensures names { (job : Job) (m : State_of StrandState) → IsMachine job self.now m →
            AreNames (strands_of_job job) result.now m.strands }
    {
        self.strands.names.as_slice()
    }

    /// What a strand wants. `None` if it waits for its fork or has ended, or if no strand has the number.
    pub fn at(&self, strand: u32) -> Option<Want>
        ensures wants { (job : Job) (m : State_of StrandState) (q : List Turn) → IsMachine job self.now m →
            steps_down (names_in self.now) strand ≡ Some q →
            result ≡ want_before_end (strands_of_job job) (at (strands_of_job job) m.strands q) }
        ensures unknown { (job : Job) (m : State_of StrandState) → IsMachine job self.now m →
            length (names_in self.now) ≤ strand → result ≡ None }
    {
        unless_ended(self.strands.want(strand))
    }

    /// What the memory holds.
    pub fn memory(&self) -> &[i64]
        ensures { (job : Job) (m : State_of StrandState) → IsMachine job self.now m → m.memory ≡ result.now }
    {
        self.memory.as_slice()
    }

    /// Returns what the innermost begun block would put back if it were given up now.
    pub fn given_up(&self) -> Result<Seq<Back>, OutOfMemory>
        ensures { IfOk result (λ list. (job : Job) (m : State_of StrandState) → IsMachine job self.now m → list ≡ given_up m.since) }
    {
        self.undo.given_up(self.alloc, &self.memory)
    }

    /// What was output so far.
    pub fn outputs(&self) -> &[i64]
        ensures { (job : Job) (m : State_of StrandState) → IsMachine job self.now m → m.outputs ≡ result.now }
    {
        self.outputs.as_slice()
    }

    /// Whether the root has ended.
    pub fn ended(&self) -> bool
        ensures { (job : Job) (m : State_of StrandState) → IsMachine job self.now m → result ≡ has_ended (strands_of_job job) m }
    {
        self.strands.is_over(0)
    }

    /// Picks a strand. Returns false, with nothing changed, if it cannot be picked or no strand has the number.
    /// `program` is the one that the machine was made of. After an error the machine can only be dropped.
    pub fn pick(&mut self, program: &Program, strand: u32) -> Result<bool, OutOfMemory>
        requires { Runs program.now self.old }
        ensures picks { IfOk result (λ moved. (job : Job) (m : State_of StrandState) (q : List Turn) → job.program ≡ program.now →
            IsMachine job self.old m → steps_down (names_in self.old) strand ≡ Some q →
            Picks job m (pick (strands_of_job job) m q) moved self.new) }
        ensures runs { OnOk result (Runs program.now self.new) }
        ensures unknown { IfOk result (λ moved. (job : Job) (m : State_of StrandState) → IsMachine job self.old m →
            length (names_in self.old) ≤ strand → moved ≡ false) }
        ensures stuck { IfOk result (λ moved. moved ≡ false → self.new ≡ self.old) }
        ensures names { IfOk result (λ moved. IsFront (names_in self.old) (names_in self.new)) }
    {
        let Some(want) = self.strands.want(strand) else {
            return Ok(false);
        };
        if !self.may_pick(strand) {
            return Ok(false);
        }
        let Some(given) = self.do_want(strand, want)? else {
            return Ok(false);
        };
        self.strands.answer(strand, given, program)?;
        self.strands.settle(self.alloc, strand, program)?;
        Ok(true)
    }

    /// The end of the machine after `place` picks, if the last strand is `strand`, with the number `name` in the order.
    pub(crate) fn shown(self, strand: Option<u32>, name: u32, place: u32) -> SerialEnd
        ensures { (job : Job) (m : State_of StrandState) (o : Option (List Turn)) → IsMachine job self m →
            IsNamed job m self strand o →
            result ≡ (if has_ended (strands_of_job job) m then last.Finished m.memory m.outputs
            else unwrap_or (end_of_named (strands_of_job job) m name o) (last.Stuck place)) }
    {
        if self.ended() {
            return SerialEnd::Finished {
                memory: Seq::from_vec(self.memory),
                outputs: Seq::from_vec(self.outputs),
            };
        }
        end_from(self.want_of(strand), name, place)
    }

    /// What a strand wants, if there is one.
    pub(crate) fn want_of(&self, strand: Option<u32>) -> Option<Want>
        ensures { (job : Job) (m : State_of StrandState) (o : Option (List Turn)) → IsMachine job self.now m →
            IsNamed job m self.now strand o → result ≡ want_before_end (strands_of_job job) (at_named job m o) }
    {
        match strand {
            None => None,
            Some(number) => self.at(number),
        }
    }

    /// Whether a strand is inside the innermost begun block.
    fn may_pick(&self, strand: u32) -> bool
        ensures { (job : Job) (m : State_of StrandState) (q : List Turn) → IsMachine job self.now m →
            steps_down (names_in self.now) strand ≡ Some q → result ≡ may_pick m.begun q }
    {
        match self.undo.begun.newest() {
            None => true,
            Some(block) => self.strands.is_beneath(block.strand, strand),
        }
    }

    /// The number of a strand, by the fork that started it.
    pub(crate) fn started(&self, name: Name) -> Option<u32>
        ensures { result ≡ started_at self.now.strands.rows.items name }
    {
        self.strands.started(name)
    }

    /// Does what a strand wants and returns what the strand is given. Returns `None` if the want cannot be done.
    fn do_want(&mut self, strand: u32, want: Want) -> Result<Option<Given>, OutOfMemory>
        ensures { IfOk result (λ given. DoesWant want strand self.old given self.new) }
    {
        if !self.undo.follow(strand, want, &self.memory)? {
            return Ok(None);
        }
        match want {
            Want::Load(element) => {
                let value = value_at(&self.memory, element as usize);
                return Ok(Some(Given::Value(value)));
            }
            Want::Cancel => {
                let list = self.undo.given_up(self.alloc, &self.memory)?;
                return Ok(Some(Given::Back(list)));
            }
            Want::Store(element, value) => {
                if let Some(held) = self.memory.get_mut(element as usize) {
                    *held = value;
                }
            }
            Want::Out(value) => self.outputs.push(value)?,
            _ => {}
        }
        Ok(Some(Given::Nothing))
    }
}

/// The want, unless it is an end.
fn unless_ended(want: Option<Want>) -> Option<Want>
    ensures { result ≡ before_end want }
{
    match want {
        None | Some(Want::Sync | Want::Done) => None,
        Some(other) => Some(other),
    }
}

/// How a run ends whose last strand has this want.
fn end_from(want: Option<Want>, name: u32, place: u32) -> SerialEnd
    ensures { result ≡ end_from want name place }
{
    match want {
        None => SerialEnd::Stuck { place },
        Some(Want::Fault(kind)) => SerialEnd::Fault { name, kind },
        Some(_) => SerialEnd::At { name },
    }
}

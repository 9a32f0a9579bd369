//! Lists of logs, which can be appended without memory.
ghost use Rattle.std.specs.Prelude.{◌≡◌, ◌<◌, ◌+◌, ◌^◌, [], ◌∷◌, ◌++◌, length, MatchOption, OnOk, OnErr};
ghost use Rattle.std.specs.Map.Iter.{ShowsInOrder, deref};
ghost use Rattle.cw_log.specs.declared.log.Log.{Log};

use crate::Log;
use cw_base::{OutOfMemory, Seq};
use std::alloc::Global;
use std::collections::LinkedList;
use std::collections::linked_list::Iter;
use std::marker::Model;

/// Iterates over the logs of a list, in order.
pub type LogsIter<'a> = Iter<'a, Log>;

/// A list of logs. Contracts see the list.
#[derive(Drop)]
pub struct Logs {
    list: LinkedList<Log>,
}

impl Model for Logs {
    ghost use Rattle.std.specs.Prelude.{List};
    ghost use Rattle.cw_log.specs.declared.log.Log.{Log};

    ghost Value = { List Log };

    ghost view = { λ l. l.list };
}

impl Logs {
    /// Makes the empty list. Takes no memory.
    pub fn new(alloc: Global) -> Logs
        ensures { result ≡ [] }
    {
        Logs {
            list: LinkedList::new(alloc),
        }
    }

    /// Adds `log` at the end.
    pub fn push(&mut self, log: Log) -> Result<(), OutOfMemory>
        ensures ok { OnOk result (self.new ≡ self.old ++ log ∷ []) }
        ensures err { OnErr result (self.new ≡ self.old) }
    {
        self.list.push_back(log)?;
        Ok(())
    }

    /// Appends the list `more`. Takes no memory, and the same time for lists of any length.
    pub fn append(&mut self, more: Logs)
        requires { length self.old + length more < 2 ^ 63 }
        ensures { self.new ≡ self.old ++ more }
    {
        let Logs { list } = more;
        let mut more = list;
        if self.list.append(&mut more).is_err() {
            unreachable!()
        }
    }

    pub fn iter(&self) -> LogsIter<'_>
        ensures rest { result ≡ self.now }
        ensures runs { ShowsInOrder (deref {X = Log}) }
    {
        self.list.iter()
    }

    pub fn len(&self) -> usize
        ensures { result ≡ length self.now }
    {
        self.list.len()
    }
}

/// Room for one log in a list, allocated ahead.
#[derive(Drop)]
pub struct LogRoom {
    list: LinkedList<Log>,
    ghost one: { length list ≡ 1 },
}

impl LogRoom {
    pub fn new(alloc: Global) -> Result<LogRoom, OutOfMemory> {
        let mut list = LinkedList::new(alloc);
        list.push_back(Log {
            column: 0,
            from: 0,
            fork: 0,
            nodes: Seq::new(alloc),
            conflicts: Seq::new(alloc),
        })?;
        Ok(LogRoom { list })
    }

    /// Returns the list of one log. Takes no memory.
    pub fn fill(self, log: Log) -> Logs
        ensures { result ≡ log ∷ [] }
    {
        let LogRoom { list } = self;
        let mut list = list;
        if let Some(place) = list.front_mut() {
            *place = log;
        }
        Logs { list }
    }
}

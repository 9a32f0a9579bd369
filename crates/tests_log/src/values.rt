//! The values of a board's cells, under one lock.
ghost use Rattle.cw_log.specs.Answers as answers;
ghost use Rattle.cw_log.specs.Answers.{IsWritten};
ghost use Rattle.std.specs.Prelude.{◌≡◌};

use cw_base::OutOfMemory;
use cw_tree::Kind;
use std::alloc::Global;
use std::sync::{Mutex, Wait};

#[derive(Drop)]
pub struct Values {
    list: Mutex<Vec<i64>>,
}

impl Values {
    /// Makes `cells` cells, each 0.
    pub fn new(alloc: Global, cells: u32) -> Result<Values, OutOfMemory> {
        let mut list = Vec::new(alloc);
        for _ in 0..cells {
            list.push(0)?;
        }
        Ok(Values {
            list: Mutex::new(list),
        })
    }

    /// Writes to `cell` if a value is given, and returns the cell's value.
    pub fn access<R: Wait>(&self, rt: &R, cell: u32, write: Option<i64>) -> i64
        ensures { IsWritten write result }
    {
        let mut list = self.list.lock(rt);
        let list: &mut Vec<i64> = &mut list;
        if let Some(place) = list.get_mut(cell as usize) {
            if let Some(value) = write {
                *place = value;
            }
            let held = *place;
            return held_or(write, held);
        }
        held_or(write, 0)
    }
}

fn held_or(write: Option<i64>, held: i64) -> i64
    ensures { IsWritten write result }
{
    match write {
        Some(value) => value,
        None => held,
    }
}

/// Returns the node kind of an access.
pub fn access_kind(cell: u32, write: Option<i64>, value: i64) -> Kind
    ensures { result ≡ answers.kind_of_answer cell write value }
{
    match write {
        None => Kind::Read { cell, value },
        Some(_) => Kind::Write { cell, value },
    }
}

//! Cancels: what a block that is given up puts back. Its cells are looked at one after another, each under its lock, by the numbers of
//! the cells. While its block is pending, no other strand comes to them.
ghost use Rattle.std.specs.Prelude.{◌≡◌, ◌<◌, ◌≤◌, ◌+◌, ◌++◌, ℕ, ℤ, [], take, All, Contains, filter, if◌then◌else◌, length, map, nat_lt, vec_capacity, vec_len, IfOk, None, OnErr, Some};
ghost use Rattle.std.specs.List.Sorted.{IsStrictlyIncreasing};
ghost use Rattle.std.specs.Option.{option_to_list};
ghost use Rattle.cw_code.specs.declared.Back.{Back};
ghost use Rattle.cw_tree.specs.Accesses.{cell_value};
ghost use Rattle.cw_tree.specs.AccessStacks.{stamps, written_by};
ghost use Rattle.cw_tree.specs.declared.node.Kind.TheVariants as kind;
ghost use Rattle.cw_stack.specs.Cells.{AreSteps, CellParts};
ghost use Rattle.cw_log.specs.Answers.{Cancels};
ghost use Rattle.cw_log.specs.declared.token.Token.{Token};
ghost use Rattle.cw_log.specs.Tokens.{made, GoesFree, HasBlock};
ghost use Rattle.cw_steps.specs.Beneath.{AreTouches, AreWrittenBeneath};
ghost use Rattle.cw_steps.specs.Leaving.{HasReturned};
ghost use Rattle.cw_steps.specs.Stands.{token_of};
ghost use Rattle.cw_steps.specs.Tracks.{track_of, IsReady};
ghost use Rattle.cw_board.specs.Boards.{budget_of, cells_in, IsOf};
ghost use Rattle.cw_board.specs.Cancelled.{back_at, has_written, value_before, ArePutBack, HasLookedAt, IsPutBack};

use crate::Board;
use cw_base::{OutOfMemory, Seq, put};
use cw_code::Back;
use cw_stack::Cell;
use cw_steps::{Aim, Draw, StrandToken, Touches};
use cw_tree::Entry;
use std::sync::Wait;

/// Returns the position of the entry with this stamp. Searches from the newest on.
fn place_of(entries: &[Entry], stamp: u64) -> usize
    requires there { Contains (stamps entries.now) stamp }
    requires rising { IsStrictlyIncreasing (stamps entries.now) }
    ensures within { result < length entries.now }
    ensures entries { filter (λ e. nat_lt e.mark.stamp stamp) entries.now ≡ take result entries.now }
{
    let mut place = entries.len() - 1;
    while entries[place].mark.stamp > stamp {
        place -= 1;
    }
    place
}

/// Returns the value that the entry with this stamp found: what those before it left.
fn old_at(entries: &[Entry], stamp: u64) -> i64
    requires there { Contains (stamps entries.now) stamp }
    requires rising { IsStrictlyIncreasing (stamps entries.now) }
    ensures { (first : ℤ) → AreSteps first entries.now → result ≡ cell_value first (map written_by (filter (λ e. nat_lt e.mark.stamp stamp) entries.now)) }
{
    entries[place_of(entries, stamp)].old
}

/// Returns the cell's value from before the first entry that is one of these accesses.
fn value_before(touches: &Touches, number: u32, cell: &Cell) -> i64
    ensures { (x : Token) → AreTouches x touches.now.list.items → result ≡ value_before x number cell.now }
{
    let entries = cell.journal();
    match touches.first_entry(number, entries) {
        Some(first) => old_at(entries, first),
        None => cell.value(),
    }
}

/// Returns what is put back in a cell, if one of these accesses wrote there.
fn back_in(touches: &Touches, number: u32, cell: &Cell) -> Option<Back>
    ensures { (x : Token) → AreTouches x touches.now.list.items → result ≡ (if has_written x (record { cell = number; lay = cell.now }) then Some (back_at x (record { cell = number; lay = cell.now })) else None) }
{
    if touches.has_written(number, cell.journal()) {
        let value = value_before(touches, number, cell);
        Some(Back {
            cell: number,
            value,
        })
    } else {
        None
    }
}

/// Makes an empty list with room for one element for each cell.
fn with_room(cells: &Vec<u32>) -> Result<Vec<Back>, OutOfMemory>
    ensures none { IfOk result (λ list. list.items ≡ []) }
    ensures room { IfOk result (λ list. length cells.now.items ≤ vec_capacity list) }
{
    Ok(Vec::with_capacity(*cells.allocator(), cells.len())?)
}

/// Adds what is put back in a cell, if anything is.
fn add(list: &mut Vec<Back>, back: Option<Back>)
    requires { vec_len list.old < vec_capacity list.old }
    ensures items { list.new.items ≡ list.old.items ++ option_to_list back }
    ensures few { vec_len list.new ≤ vec_len list.old + 1 }
    ensures capacity { vec_capacity list.old ≤ vec_capacity list.new }
{
    if let Some(back) = back {
        put(list, back);
    }
}

/// Copies `from` into `list`, which has room for it.
fn copy(list: &mut Vec<Back>, from: &[Back])
    requires none { list.old.items ≡ [] }
    requires room { length from.now ≤ vec_capacity list.old }
    ensures { list.new.items ≡ from.now }
{
    if list.extend_from_slice(from).is_err() {
        unreachable!()
    }
}

impl Board {
    /// Gives up the block in the token's place. Returns what is put back: the cells that were written beneath it, by rising number, each
    /// with its value from before the block came to it. Without memory it makes no step: no lock is acquired, no number is drawn, and
    /// the block is pending as before.
    pub fn cancel<R: Wait>(&self, rt: &R, token: &mut StrandToken) -> Result<Seq<Back>, OutOfMemory>
        requires of { IsOf self.now token.old }
        requires goes { GoesFree (budget_of self.now) (token_of token.old) }
        requires block { HasBlock (token_of token.old) }
        ensures of { IsOf self.now token.new }
        ensures ok { IfOk result (λ back. Cancels (cells_in self.now) (token_of token.old) (token_of token.new) back) }
        ensures listed { IfOk result (λ back. IsPutBack self.now token.old back) }
        ensures err { OnErr result (token_of token.new ≡ token_of token.old) }
        ensures unmoved { OnErr result ((token.new.seat ≡ token.old.seat) × (track_of token.new.track ≡ track_of token.old.track)) }
        ensures word { (track_of token.new.track).word ≡ (track_of token.old.track).word }
    {
        let touches = token.touches()?;
        let cells = touches.written_cells(self.shared.cells())?;
        let kept = with_room(&cells)?;
        let told = with_room(&cells)?;
        token.reserve(1)?;
        Ok(self.give_up(rt, token, &touches, cells.as_slice(), kept, told))
    }

    /// Looks at the cells, and adds the cancel to the token's log. Takes no memory.
    fn give_up<R: Wait>(
        &self,
        rt: &R,
        token: &mut StrandToken,
        touches: &Touches,
        cells: &[u32],
        kept: Vec<Back>,
        told: Vec<Back>,
    ) -> Seq<Back>
        requires of { IsOf self.now token.old }
        requires ready { IsReady token.old.track 1 }
        requires block { HasBlock (token_of token.old) }
        requires touches { AreTouches (token_of token.old) touches.now.list.items }
        requires cells { AreWrittenBeneath (token_of token.old) (cells_in self.now) cells.now }
        requires none { (kept.items ≡ []) × (told.items ≡ []) }
        requires room { (length cells.now ≤ vec_capacity kept) × (length cells.now ≤ vec_capacity told) }
        ensures of { IsOf self.now token.new }
        ensures cancels { Cancels (cells_in self.now) (token_of token.old) (token_of token.new) result }
        ensures listed { IsPutBack self.now token.old result }
        ensures word { (track_of token.new.track).word ≡ (track_of token.old.track).word }
    {
        let mut kept = kept;
        let mut told = told;
        self.look_at(rt, token, touches, cells, &mut told);
        let list = told.as_slice();
        copy(&mut kept, list);
        let back = Seq::from_vec(kept);
        self.put_cancel(token, back);
        Seq::from_vec(told)
    }

    /// Looks at cells, and lists what is put back. Takes no memory.
    fn look_at<R: Wait>(
        &self,
        rt: &R,
        token: &mut StrandToken,
        touches: &Touches,
        cells: &[u32],
        list: &mut Vec<Back>,
    )
        requires of { IsOf self.now token.old }
        requires touches { AreTouches (token_of token.old) touches.now.list.items }
        requires cells { All (λ c. c < cells_in self.now) cells.now }
        requires none { list.old.items ≡ [] }
        requires room { length cells.now ≤ vec_capacity list.old }
        ensures of { IsOf self.now token.new }
        ensures list { ArePutBack self.now token.old cells.now list.new.items }
        ensures room { length list.new.items ≤ length cells.now }
        ensures track { token.new.track ≡ token.old.track }
        ensures token { token_of token.new ≡ token_of token.old }
    {
        for cell in cells {
            let back = self.look(rt, token, touches, *cell);
            add(list, back);
        }
    }

    /// Looks at one cell, and returns what is put back there, if anything is.
    fn look<R: Wait>(
        &self,
        rt: &R,
        token: &mut StrandToken,
        touches: &Touches,
        cell: u32,
    ) -> Option<Back>
        requires of { IsOf self.now token.old }
        requires touches { AreTouches (token_of token.old) touches.now.list.items }
        requires cell { cell < cells_in self.now }
        ensures of { IsOf self.now token.new }
        ensures returned { HasReturned token.old.seat.me token.new.seat.me }
        ensures track { token.new.track ≡ token.old.track }
        ensures token { token_of token.new ≡ token_of token.old }
        ensures found { (lay : CellParts) × HasLookedAt self.now token.old (record { cell = cell; lay = lay })
            × (result ≡ (if has_written (token_of token.old) (record { cell = cell; lay = lay }) then Some (back_at (token_of token.old) (record { cell = cell; lay = lay })) else None)) }
    {
        let held = self.hold_cell(rt, token, cell, Aim::Look);
        let back = back_in(touches, cell, &held);
        self.leave_cell(token, cell, held);
        back
    }

    /// Adds the cancel to the token's log.
    fn put_cancel(&self, token: &mut StrandToken, back: Seq<Back>)
        requires of { IsOf self.now token.old }
        requires ready { IsReady token.old.track 1 }
        requires block { HasBlock (token_of token.old) }
        requires there { All (λ (k : Back). k.cell < cells_in self.now) back }
        requires rises { IsStrictlyIncreasing (map (λ (k : Back). k.cell) back) }
        ensures of { IsOf self.now token.new }
        ensures token { (stamp : ℕ) × (token_of token.new ≡ made (token_of token.old) (kind.Cancel back) stamp) }
        ensures word { (track_of token.new.track).word ≡ (track_of token.old.track).word }
    {
        self.shared.draw(token, Draw::Cancel { back });
    }
}

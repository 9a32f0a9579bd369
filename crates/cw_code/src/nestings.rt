ghost use Rattle.std.specs.Prelude.{◌≡◌, ℕ, ◌+◌, ◌<◌, [], ◌∷◌, ◌++◌, length, replicate, not, false, Some, None, ◌==◌, slice_get, slice_set, IfOk, OnErr, OnOk};
ghost use Rattle.cw_code.specs.Rules.{is_part, parts_in, is_in_block, same_parts, without_part};
ghost use Rattle.cw_code.specs.Nested.{parts_at, IsGrown, child, with_child};

use crate::situation::Part;
use cw_base::OutOfMemory;
use std::alloc::Global;
use std::marker::Model;

/// A row of the table of nestings: the innermost part, and the number of the nesting around it. `block` and `fork` are
/// the numbers of the nestings with a block or a forked part within it, or 0.
#[derive(Clone, Copy, PartialEq, Eq, Debug)]
pub struct Nesting {
    pub part: Part,
    pub outer: u32,
    pub block: u32,
    pub fork: u32,
}

/// A table in which each nesting of open parts occurs once, so that its number identifies it. In nesting 0 no part is open.
#[derive(Drop)]
pub struct Nestings {
    rows: Vec<Nesting>,
}

impl Model for Nestings {
    ghost use Rattle.cw_code.specs.Nested.{Nested, lists, IsTable};

    ghost Value = { Nested };

    ghost view = { λ t. lists t.rows.items };

    ghost invariant = { λ t. IsTable t.rows.items };
}

/// Whether two parts are of the same kind.
fn is_part(part: Part, other: Part) -> bool
    ensures { result ≡ is_part part other }
{
    match part {
        Part::Block => match other {
            Part::Block => true,
            Part::Fork => false,
        },
        Part::Fork => match other {
            Part::Block => false,
            Part::Fork => true,
        },
    }
}

/// The kind of part other than `part`.
fn other_kind(part: Part) -> Part
    ensures { is_part part result ≡ false }
{
    match part {
        Part::Block => Part::Fork,
        Part::Fork => Part::Block,
    }
}

/// The number of the nesting with a part of this kind within `row`, or 0.
fn child(row: &Nesting, part: Part) -> u32
    ensures { result ≡ child part row.now }
{
    match part {
        Part::Block => row.block,
        Part::Fork => row.fork,
    }
}

/// The row with `number` as its nesting with a part of this kind within.
fn with_child(row: Nesting, part: Part, number: u32) -> Nesting
    ensures { result ≡ with_child part number row }
{
    match part {
        Part::Block => Nesting {
            block: number,
            ..row
        },
        Part::Fork => Nesting {
            fork: number,
            ..row
        },
    }
}

/// The row with the number `number`.
fn row_of(rows: &[Nesting], number: u32) -> Nesting
    requires { number < length rows.now }
    ensures { slice_get rows.now number ≡ Some result }
{
    rows[number as usize]
}

/// Adds a row for `part` within `outer`, and enters its number in the row of `outer`.
fn add(rows: &mut Vec<Nesting>, outer: u32, part: Part) -> Result<u32, OutOfMemory>
    requires { outer < length rows.old.items }
    ensures err { OnErr result (rows.new.items ≡ rows.old.items) }
    ensures number { IfOk result (λ n. n ≡ length rows.old.items) }
    ensures ok { IfOk result (λ n. (r : Nesting) → slice_get rows.old.items outer ≡ Some r → rows.new.items ≡ slice_set (rows.old.items ++ record { part = part; outer = outer; block = 0; fork = 0 } ∷ []) outer (with_child part n r)) }
{
    let number = u32::try_from(rows.len()).map_err(|_| OutOfMemory)?;
    let row = row_of(rows, outer);
    rows.push(Nesting {
        part,
        outer,
        block: 0,
        fork: 0,
    })?;
    rows[outer as usize] = with_child(row, part, number);
    Ok(number)
}

impl Nestings {
    /// Returns the table in which no part is open.
    pub fn new(alloc: Global) -> Result<Nestings, OutOfMemory>
        ensures { IfOk result (λ t. t ≡ [] ∷ []) }
    {
        let mut rows = Vec::new(alloc);
        rows.push(Nesting {
            part: Part::Block,
            outer: 0,
            block: 0,
            fork: 0,
        })?;
        Ok(Nestings { rows })
    }

    /// Whether two numbers name the same parts.
    pub fn are_same(&self, one: u32, other: u32) -> bool
        requires { (one < length self.now) × (other < length self.now) }
        ensures { result ≡ same_parts (parts_at self.now one) (parts_at self.now other) }
    {
        let _rows = &self.rows;
        one == other
    }

    /// The innermost part of a nesting with the number of the nesting around it, or `None` if no part is open.
    fn innermost(&self, number: u32) -> Option<Nesting>
        requires { number < length self.now }
        ensures none { result ≡ None → parts_at self.now number ≡ [] }
        ensures some { (r : Nesting) → result ≡ Some r → (parts_at self.now number ≡ r.part ∷ parts_at self.now r.outer) × (r.outer < number) }
    {
        let rows = &self.rows;
        if number == 0 {
            None
        } else {
            Some(row_of(rows, number))
        }
    }

    /// Whether the innermost part is a block.
    pub fn is_in_block(&self, number: u32) -> bool
        requires { number < length self.now }
        ensures { result ≡ is_in_block (parts_at self.now number) }
    {
        match self.innermost(number) {
            None => false,
            Some(row) => is_part(Part::Block, row.part),
        }
    }

    /// Whether a part of this kind is open.
    pub fn holds(&self, number: u32, part: Part) -> bool
        requires { number < length self.now }
        ensures { result ≡ not (parts_in part (parts_at self.now number) == 0) }
    {
        let mut around = number;
        while let Some(row) = self.innermost(around) {
            if is_part(part, row.part) {
                return true;
            }
            around = row.outer;
        }
        false
    }

    /// Returns the nesting with `part` within `number`.
    pub fn within(&mut self, number: u32, part: Part) -> Result<u32, OutOfMemory>
        requires { number < length self.old }
        ensures grown { IsGrown self.old self.new }
        ensures made { IfOk result (λ n. n < length self.new) }
        ensures parts { IfOk result (λ n. parts_at self.new n ≡ part ∷ parts_at self.old number) }
    {
        let known = child(&row_of(&self.rows, number), part);
        if known != 0 {
            Ok(known)
        } else {
            add(&mut self.rows, number, part)
        }
    }

    /// Returns the nesting with `count` parts of one kind within `number`.
    fn again(&mut self, number: u32, part: Part, count: u32) -> Result<u32, OutOfMemory>
        requires { number < length self.old }
        ensures grown { IsGrown self.old self.new }
        ensures made { IfOk result (λ n. n < length self.new) }
        ensures parts { IfOk result (λ n. parts_at self.new n ≡ replicate count part ++ parts_at self.old number) }
    {
        let mut inner = number;
        for _ in 0..count {
            inner = self.within(inner, part)?;
        }
        Ok(inner)
    }

    /// Returns the nesting without its innermost part of this kind, however deep that is.
    pub fn without(&mut self, number: u32, part: Part) -> Result<u32, OutOfMemory>
        requires { number < length self.old }
        ensures grown { IsGrown self.old self.new }
        ensures made { IfOk result (λ n. n < length self.new) }
        ensures parts { IfOk result (λ n. parts_at self.new n ≡ without_part part (parts_at self.old number)) }
    {
        let mut passed: u32 = 0;
        let mut around = number;
        while let Some(found) = self.innermost(around) {
            if is_part(part, found.part) {
                return self.again(found.outer, other_kind(part), passed);
            }
            passed += 1;
            around = found.outer;
        }
        Ok(number)
    }
}

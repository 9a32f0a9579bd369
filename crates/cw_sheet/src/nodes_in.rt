ghost use Rattle.std.specs.Prelude.{◌≡◌, false, codes};
ghost use Rattle.std.specs.Str.{bytes_eq};
ghost use Rattle.cw_sheet.specs.Reading.{access_node, block_node, cancel_node, fork_node, node, node_named, nodes, other_node, out_node, state, strand_node, tried_node};
ghost use Rattle.cw_sheet.specs.Items.{exactly};
ghost use Rattle.cw_sheet.specs.Taking.{Takes, outcome, place_of};

use crate::cursor::Cursor;
use crate::lines::backs_behind;
use crate::{SheetFault, SheetKind, SheetRefusal};
use cw_base::Seq;
use cw_tree::{BlockState, Kind, Node};
use std::alloc::Global;

// A node that is no block.
fn other_node(parent: u32, kind: Kind, stamp: u64) -> Node
    ensures { result ≡ other_node parent kind stamp }
{
    Node {
        parent,
        kind,
        state: BlockState::Committed,
        stamp,
        end: 0,
    }
}

// The lines of nodes, from behind their first word on.
impl Cursor<'_> {
    ghost use Rattle.cw_tree.specs.declared.node.Kind.TheVariants.{Read, Write};

    // Takes a strand. The first node of the tree is its own parent.
    fn strand_node(&mut self, number: usize) -> Result<Node, SheetFault>
        ensures { strand_node number (place_of self.old) ≡ outcome result (place_of self.new) }
    {
        let parent = self.number32()?;
        if number == 0 && parent != 0 {
            return Err(self.fault(SheetKind::Unexpected));
        }
        self.newline()?;
        Ok(other_node(parent, Kind::Strand, 0))
    }

    fn fork_node(&mut self) -> Result<Node, SheetFault>
        ensures { fork_node (place_of self.old) ≡ outcome result (place_of self.new) }
    {
        let parent = self.number32()?;
        let stamp = self.number64()?;
        self.newline()?;
        Ok(other_node(parent, Kind::Fork, stamp))
    }

    fn state(&mut self) -> Result<BlockState, SheetFault>
        ensures { state (place_of self.old) ≡ outcome result (place_of self.new) }
    {
        let word = self.next_item()?;
        if word == b"pending".as_slice() {
            Ok(BlockState::Pending)
        } else if word == b"committed".as_slice() {
            Ok(BlockState::Committed)
        } else if word == b"aborted".as_slice() {
            Ok(BlockState::Aborted)
        } else {
            Err(self.fault(SheetKind::Unexpected))
        }
    }

    fn block_node(&mut self) -> Result<Node, SheetFault>
        ensures { block_node (place_of self.old) ≡ outcome result (place_of self.new) }
    {
        let parent = self.number32()?;
        let stamp = self.number64()?;
        let state = self.state()?;
        let end = self.number64()?;
        self.newline()?;
        Ok(Node {
            parent,
            kind: Kind::Block,
            state,
            stamp,
            end,
        })
    }

    fn read_node(&mut self) -> Result<Node, SheetFault>
        ensures { access_node (λ c v. Read c v) (place_of self.old) ≡ outcome result (place_of self.new) }
    {
        let parent = self.number32()?;
        let stamp = self.number64()?;
        let cell = self.number32()?;
        let value = self.value()?;
        self.newline()?;
        Ok(other_node(parent, Kind::Read { cell, value }, stamp))
    }

    fn write_node(&mut self) -> Result<Node, SheetFault>
        ensures { access_node (λ c v. Write c v) (place_of self.old) ≡ outcome result (place_of self.new) }
    {
        let parent = self.number32()?;
        let stamp = self.number64()?;
        let cell = self.number32()?;
        let value = self.value()?;
        self.newline()?;
        Ok(other_node(parent, Kind::Write { cell, value }, stamp))
    }

    fn out_node(&mut self) -> Result<Node, SheetFault>
        ensures { out_node (place_of self.old) ≡ outcome result (place_of self.new) }
    {
        let parent = self.number32()?;
        let stamp = self.number64()?;
        let value = self.value()?;
        self.newline()?;
        Ok(other_node(parent, Kind::Out { value }, stamp))
    }

    fn tried_node(&mut self) -> Result<Node, SheetFault>
        ensures { tried_node (place_of self.old) ≡ outcome result (place_of self.new) }
    {
        let parent = self.number32()?;
        let cell = self.number32()?;
        self.newline()?;
        Ok(other_node(parent, Kind::Tried { cell }, 0))
    }

    // Takes the rest of a node's line, by its first word, which is not `cancel`.
    fn short_node(&mut self, word: &[u8], number: usize) -> Result<Node, SheetFault>
        requires { bytes_eq word.now (codes "cancel") ≡ false }
        ensures { node_named word.now number (place_of self.old) ≡ outcome result (place_of self.new) }
    {
        if word == b"strand".as_slice() {
            self.strand_node(number)
        } else if word == b"fork".as_slice() {
            self.fork_node()
        } else if word == b"block".as_slice() {
            self.block_node()
        } else if word == b"read".as_slice() {
            self.read_node()
        } else if word == b"write".as_slice() {
            self.write_node()
        } else if word == b"out".as_slice() {
            self.out_node()
        } else if word == b"tried".as_slice() {
            self.tried_node()
        } else {
            Err(self.fault(SheetKind::Unexpected))
        }
    }
}

fn cancel_node(alloc: Global, cursor: &mut Cursor<'_>) -> Result<Node, SheetRefusal>
    ensures { Takes result (λ x. x) (cancel_node (place_of cursor.old)) (place_of cursor.new) }
{
    let parent = cursor.number32()?;
    let stamp = cursor.number64()?;
    let count = cursor.count()?;
    let back = backs_behind(alloc, cursor)?;
    if back.len() != count {
        return Err(SheetRefusal::Sheet(cursor.fault(SheetKind::Unexpected)));
    }
    cursor.newline()?;
    let back = Seq::from_vec(back);
    Ok(other_node(parent, Kind::Cancel { back }, stamp))
}

// Takes the line of the node with this number.
fn node(alloc: Global, cursor: &mut Cursor<'_>, number: usize) -> Result<Node, SheetRefusal>
    ensures { Takes result (λ x. x) (node number (place_of cursor.old)) (place_of cursor.new) }
{
    let word = cursor.item();
    if word == b"cancel".as_slice() {
        return cancel_node(alloc, cursor);
    }
    Ok(cursor.short_node(word, number)?)
}

// Takes the lines of `count` nodes.
fn nodes_of(alloc: Global, cursor: &mut Cursor<'_>, count: usize) -> Result<Vec<Node>, SheetRefusal>
    ensures { Takes result (λ v. v.items) (exactly count 0 node (place_of cursor.old)) (place_of cursor.new) }
{
    let mut nodes = Vec::new(alloc);
    for number in 0..count {
        nodes.push(node(alloc, cursor, number)?)?;
    }
    Ok(nodes)
}

/// Takes the nodes, behind the line that says how many.
pub(crate) fn nodes(alloc: Global, cursor: &mut Cursor<'_>) -> Result<Vec<Node>, SheetRefusal>
    ensures { Takes result (λ v. v.items) (nodes (place_of cursor.old)) (place_of cursor.new) }
{
    let count = cursor.count_line("nodes")?;
    nodes_of(alloc, cursor, count)
}

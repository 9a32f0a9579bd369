ghost use Rattle.std.specs.Prelude.{◌≡◌, ◌++◌, OnOk, length, string_bytes};
ghost use Rattle.std.specs.List.{flat_map};
ghost use Rattle.cw_sheet.specs.SheetText.{access_line, back_items, block_line, cancel_line, fork_line, kind_line, node_line, nodes_part, out_line, spaced, state_word, strand_line, tried_line};

use crate::parts::push_count;
use cw_base::OutOfMemory;
use cw_code::Back;
use cw_tree::{BlockState, Kind, Node};
use std::fmt::Write;

fn push_strand(text: &mut String, parent: u32) -> Result<(), OutOfMemory>
    ensures { OnOk result (string_bytes text.new ≡ string_bytes text.old ++ strand_line parent) }
{
    writeln!(text, "strand {parent}")?;
    Ok(())
}

fn push_fork(text: &mut String, parent: u32, stamp: u64) -> Result<(), OutOfMemory>
    ensures { OnOk result (string_bytes text.new ≡ string_bytes text.old ++ fork_line parent stamp) }
{
    writeln!(text, "fork {parent} {stamp}")?;
    Ok(())
}

fn state_word(state: BlockState) -> &'static str
    ensures { result.now ≡ state_word state }
{
    match state {
        BlockState::Pending => "pending",
        BlockState::Committed => "committed",
        BlockState::Aborted => "aborted",
    }
}

fn push_block(text: &mut String, node: &Node) -> Result<(), OutOfMemory>
    ensures { OnOk result (string_bytes text.new ≡ string_bytes text.old ++ block_line node.now.parent node.now.stamp node.now.state node.now.end) }
{
    let state = state_word(node.state);
    writeln!(
        text,
        "block {} {} {state} {}",
        node.parent, node.stamp, node.end
    )?;
    Ok(())
}

// Writes the line of a read or a write, which begins with `word`.
fn push_access(
    text: &mut String,
    word: &str,
    node: &Node,
    cell: u32,
    value: i64,
) -> Result<(), OutOfMemory>
    ensures { OnOk result (string_bytes text.new ≡ string_bytes text.old ++ access_line word.now node.now.parent node.now.stamp cell value) }
{
    writeln!(text, "{word} {} {} {cell} {value}", node.parent, node.stamp)?;
    Ok(())
}

fn push_out(text: &mut String, node: &Node, value: i64) -> Result<(), OutOfMemory>
    ensures { OnOk result (string_bytes text.new ≡ string_bytes text.old ++ out_line node.now.parent node.now.stamp value) }
{
    writeln!(text, "out {} {} {value}", node.parent, node.stamp)?;
    Ok(())
}

fn push_tried(text: &mut String, parent: u32, cell: u32) -> Result<(), OutOfMemory>
    ensures { OnOk result (string_bytes text.new ≡ string_bytes text.old ++ tried_line parent cell) }
{
    writeln!(text, "tried {parent} {cell}")?;
    Ok(())
}

// Writes cells, each with the value that is put back there.
fn push_back(text: &mut String, back: &[Back]) -> Result<(), OutOfMemory>
    ensures { OnOk result (string_bytes text.new ≡ string_bytes text.old ++ spaced (back_items back.now)) }
{
    for one in back {
        write!(text, " {} {}", one.cell, one.value)?;
    }
    Ok(())
}

fn push_cancel(text: &mut String, node: &Node, back: &[Back]) -> Result<(), OutOfMemory>
    ensures { OnOk result (string_bytes text.new ≡ string_bytes text.old ++ cancel_line node.now.parent node.now.stamp back.now) }
{
    write!(text, "cancel {} {} {}", node.parent, node.stamp, back.len())?;
    push_back(text, back)?;
    text.push_str("\n")?;
    Ok(())
}

fn push_node(text: &mut String, node: &Node) -> Result<(), OutOfMemory>
    ensures { OnOk result (string_bytes text.new ≡ string_bytes text.old ++ node_line node.now) }
{
    match &node.kind {
        Kind::Strand => push_strand(text, node.parent),
        Kind::Fork => push_fork(text, node.parent, node.stamp),
        Kind::Block => push_block(text, node),
        Kind::Read { cell, value } => push_access(text, "read", node, *cell, *value),
        Kind::Write { cell, value } => push_access(text, "write", node, *cell, *value),
        Kind::Out { value } => push_out(text, node, *value),
        Kind::Tried { cell } => push_tried(text, node.parent, *cell),
        Kind::Cancel { back } => push_cancel(text, node, back.as_slice()),
    }
}

fn push_each_node(text: &mut String, nodes: &[Node]) -> Result<(), OutOfMemory>
    ensures { OnOk result (string_bytes text.new ≡ string_bytes text.old ++ flat_map node_line nodes.now) }
{
    for node in nodes {
        push_node(text, node)?;
    }
    Ok(())
}

pub(crate) fn push_nodes(text: &mut String, nodes: &[Node]) -> Result<(), OutOfMemory>
    ensures { OnOk result (string_bytes text.new ≡ string_bytes text.old ++ nodes_part nodes.now) }
{
    push_count(text, "nodes", nodes.len())?;
    push_each_node(text, nodes)
}

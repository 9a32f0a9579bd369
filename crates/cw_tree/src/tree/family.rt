ghost use Rattle.std.specs.Prelude.{◌≡◌, ◌++◌, ◌<◌, length, reverse, IfOk, OnOk};
ghost use Rattle.cw_tree.specs.Series.{children};

use super::Tree;
use cw_base::OutOfMemory;
use std::marker::Model;

/// A tree with each node's last child, and the last earlier child of its parent. A walk finds the children of a node in
/// it without a look at all other nodes.
#[derive(Drop)]
pub struct Family<'t> {
    tree: &'t Tree,
    last: Vec<Option<u32>>,
    before: Vec<Option<u32>>,
}

impl<'t> Model for Family<'t> {
    ghost use Rattle.std.specs.Prelude.{List};
    ghost use Rattle.cw_tree.specs.declared.node.Node.{Node};
    ghost use Rattle.cw_tree.specs.Links.{AreFamilyLinks};

    ghost Value = { List Node };

    ghost view = { λ f. f.tree.now };

    ghost invariant = { λ f. AreFamilyLinks f.tree.now f.last.items f.before.items };
}

impl<'t> Family<'t> {
    /// Returns the family of `tree`. Takes memory and steps for each node.
    pub fn of_tree(tree: &'t Tree) -> Result<Family<'t>, OutOfMemory>
        ensures { IfOk result (λ f. f ≡ tree.now) }
    {
        let count = tree.nodes().len();
        let alloc = *tree.nodes.allocator();
        let mut last = vec![in alloc; None; count]?;
        let mut before = vec![in alloc; None; count]?;
        for n in 1..count as u32 {
            let parent = tree.parent(n) as usize;
            before[n as usize] = last[parent];
            last[parent] = Some(n);
        }
        Ok(Family { tree, last, before })
    }

    /// The tree.
    pub fn tree(&self) -> &'t Tree
        ensures { result.now ≡ self.now }
    {
        self.tree
    }

    /// Pushes a node's children on a stack, the first one last. Takes a step for each child. Without memory the stack may have some of
    /// the children.
    pub fn push_children(&self, n: u32, stack: &mut Vec<u32>) -> Result<(), OutOfMemory>
        requires { n < length self.now }
        ensures { OnOk result (stack.new.items ≡ stack.old.items ++ reverse (children self.now n)) }
    {
        let mut next = self.last[n as usize];
        while let Some(child) = next {
            stack.push(child)?;
            next = self.before[child as usize];
        }
        Ok(())
    }
}

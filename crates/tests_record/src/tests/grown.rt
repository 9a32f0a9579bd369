use cw_base::Seq;
use cw_code::Back;
use cw_tree::{BlockState, Kind, Tree};
use std::alloc::Global;
use std::test::Fail;

// What kind of node to add.
#[derive(Clone, Copy)]
pub enum Bud<'a> {
    Strand,
    Fork,
    Block,
    Read { cell: u32, value: i64 },
    Write { cell: u32, value: i64 },
    Out { value: i64 },
    Tried { cell: u32 },
    Cancel { back: &'a [Back] },
}

fn cancel(alloc: Global, back: &[Back]) -> Result<Kind, Fail> {
    let back = Seq::from_vec(back.to_vec(alloc)?);
    Ok(Kind::Cancel { back })
}

fn kind_of(alloc: Global, bud: Bud<'_>) -> Result<Kind, Fail> {
    match bud {
        Bud::Strand => Ok(Kind::Strand),
        Bud::Fork => Ok(Kind::Fork),
        Bud::Block => Ok(Kind::Block),
        Bud::Read { cell, value } => Ok(Kind::Read { cell, value }),
        Bud::Write { cell, value } => Ok(Kind::Write { cell, value }),
        Bud::Out { value } => Ok(Kind::Out { value }),
        Bud::Tried { cell } => Ok(Kind::Tried { cell }),
        Bud::Cancel { back } => cancel(alloc, back),
    }
}

fn grow(
    alloc: Global,
    tree: &mut Tree,
    buds: &[(u32, Bud<'_>, u64)],
    ends: &[(u32, BlockState, u64)],
) -> Result<(), Fail> {
    for &(parent, bud, stamp) in buds {
        if parent as usize >= tree.nodes().len() {
            return Err("no parent".into());
        }
        let kind = kind_of(alloc, bud)?;
        tree.add(parent, kind, stamp)?;
    }
    for &(block, state, end) in ends {
        if block as usize >= tree.nodes().len() || !tree.is_block(block) {
            return Err("no block".into());
        }
        tree.close(block, state, end);
    }
    Ok(())
}

// Makes the tree of these nodes beneath the root, each with its parent and stamp, in which these blocks have ended.
pub fn grown(
    alloc: Global,
    buds: &[(u32, Bud<'_>, u64)],
    ends: &[(u32, BlockState, u64)],
) -> Result<Tree, Fail> {
    let mut tree = Tree::new(alloc)?;
    match grow(alloc, &mut tree, buds, ends) {
        Ok(_) => Ok(tree),
        Err(fault) => {
            drop(tree);
            Err(fault)
        }
    }
}

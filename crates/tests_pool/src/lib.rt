//! Tests of a pool of workers, and of what it is built from, by their public calls: runs on a board that grants and refuses as it
//! likes, with walks over their logs; runs on the board of `cw_board`, also by workers that a gate holds; and walks over the first
//! board, over deques and over pairs.
//! They are not with the parts, so that each part is proved once.
//! `specs/Levels.antt` says what a walk knows of the begins around a strand.
#![tactic(auto)]

#[cfg(test)]
mod tests;
#[cfg(test)]
mod walk;
#[cfg(test)]
mod walker;

//! Tests of the board by its public calls. They are not with the board, so that the board is proved once.
//! `specs/Led.antt` says what a test knows of a strand that it leads.
#![tactic(auto)]

#[cfg(test)]
mod tests;

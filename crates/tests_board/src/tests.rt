//! What a board's calls return, for strands that a test leads.
mod led;
mod rolled;
mod rows;
mod threads;

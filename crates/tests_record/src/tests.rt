mod builds;
mod cancels;
mod checks;
mod grown;
mod machines;
mod orders;
mod strands;
mod trees;

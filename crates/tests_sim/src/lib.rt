//! Tests of a simulation by its public call. They are not with `cw_sim`, so that it is proved once.
#![tactic(auto)]

#[cfg(test)]
mod tests;

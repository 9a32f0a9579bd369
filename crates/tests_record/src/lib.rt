//! Tests of the lower crates by their public calls. They are not with those crates, so that each is proved once.
#![tactic(auto)]

#[cfg(test)]
mod tests;

//! Tests of the tier, the conflict query and the core by their public calls. They are not with the parts, so that each part is
//! proved once. They are not in `tests_record` either, since nothing that they test speaks of programs.
#![tactic(auto)]

#[cfg(test)]
mod tests;

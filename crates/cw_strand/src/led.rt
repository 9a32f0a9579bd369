use crate::Want;

/// What a step leads to: it goes on, or it reaches a want.
#[derive(Clone, Copy)]
pub enum Led {
    On,
    Wants(Want),
}

use cw_base::Seq;

/// A strand by the fork that started it: the number of the strand that forked, which fork of that strand it was,
/// counted from 1, and whether it is the right strand of it. The root is `Name { parent: 0, fork: 0, right: false }`.
#[derive(Clone, Copy, PartialEq, Eq, Debug)]
pub struct Name {
    pub parent: u32,
    pub fork: u32,
    pub right: bool,
}

/// A step down from a strand to one that it forked: which of its forks, counted from 1, and whether to the right strand.
#[derive(Clone, Copy, PartialEq, Eq, Debug)]
pub struct Turn {
    pub fork: u32,
    pub right: bool,
}

/// An order: the strands that it names, with the root as number 0; the numbers of the strands to pick one after another;
/// and the strand that it ends with.
#[derive(Drop)]
pub struct Picks {
    pub names: Seq<Name>,
    pub list: Seq<u32>,
    pub last: u32,
}

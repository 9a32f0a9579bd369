/// Whether and how a strand goes on. Ghost state: a body has no bytes for it.
#[derive(Clone, Copy)]
pub enum Stage {
    /// It goes on from its want, or is on its way there.
    Goes,
    /// It goes no further from where it stands, but may go back.
    GaveUp,
    /// It ran out of memory on the way to its next want: it stands nowhere.
    Lost,
}

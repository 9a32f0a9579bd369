/// What an audit finds of a sheet.
#[derive(Clone, Copy, PartialEq, Eq)]
pub enum Audit {
    /// All parts hold.
    Sound,
    /// The number of the first part that does not hold, from 1 to 8.
    Broken { part: u8 },
}

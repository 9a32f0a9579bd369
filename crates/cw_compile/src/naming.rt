//! The naming rules over a syntax tree: what its items declare, or the first naming fault.

mod checking;
mod items;
mod scope;
mod visible;

pub(crate) use checking::checked;
pub(crate) use items::Declared;

//! Texts and names for people.

pub(crate) mod explaining;
pub(crate) mod names;
pub(crate) mod showing;

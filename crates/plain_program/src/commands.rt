//! A function for each command.
pub(crate) mod file;
pub(crate) mod fileset;
pub(crate) mod name;

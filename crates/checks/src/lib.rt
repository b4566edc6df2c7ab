//! Tests of the libraries on examples. They stand apart, since a crate with tests is proved twice.

#![tactic(auto)]

#[cfg(test)]
mod pieces;
#[cfg(test)]
mod tables;
#[cfg(test)]
mod windows;

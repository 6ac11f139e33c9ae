//! Tests of `sec1` and `sec1_der` by their public calls: what their contracts can't say, on memory
//! and texts, and values from outside. [`der`] has those of `sec1_der`. `crates/replay` has keys,
//! streams and files; [`checks`] and [`der::checks`] have what is proved of definitions, of
//! constants and of `==`.
//!
//! They are in a crate of their own, so that each library is proved once. All of it is compiled
//! for tests alone, so that it is too.
#![tactic(auto)]

#[cfg(test)]
pub mod checks;
pub mod der;
#[cfg(test)]
mod errors;
#[cfg(test)]
mod helpers;
#[cfg(test)]
mod memory;
#[cfg(test)]
mod points;

//! What a user writes over the libraries, proved from their public contracts and the laws of their
//! `specs/` alone. A promise that is used here can't become weaker unseen.
//!
//! [`readme`] is the block of the README, [`documents`] has those of the other documents, and
//! [`callers`] what no document shows.
#![tactic(auto)]

pub mod callers;
pub mod documents;
pub mod readme;

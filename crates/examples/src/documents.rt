//! The blocks of code of the documents, a file for each, which can be pasted into a crate of your
//! own below the line `#![tactic(auto)]`.

pub mod algorithm;
pub mod certificate;
pub mod curve_names;
pub mod first_calls;
pub mod is_key;
pub mod moved_program;
pub mod own_default;
pub mod own_key;
pub mod own_leaf;
pub mod own_part;
pub mod own_tag;
pub mod point_set;
pub mod rewriting;
pub mod stored_secret;
pub mod unsigned_number;
pub mod writing;

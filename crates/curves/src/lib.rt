#![tactic(auto)]

mod curve;
pub mod laws;

pub use curve::Curve;

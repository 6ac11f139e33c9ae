//! Tests of `der_types`, `curves`, `pkix`, `der_view` and `examples` by their public calls, with
//! values from outside.
//!
//! [`equality`] and [`picture_equality`] have what is proved of `==` and `clone`, and [`checks`]
//! worked examples.
//!
//! They are in a crate of their own, so that each of these is proved once. All of it is compiled
//! for tests alone, so that it is too.
#![tactic(auto)]

#[cfg(test)]
mod algorithm_test;
#[cfg(test)]
mod callers;
#[cfg(test)]
pub mod checks;
#[cfg(test)]
mod contents;
#[cfg(test)]
mod curve_names;
#[cfg(test)]
pub mod equality;
#[cfg(test)]
mod faults;
#[cfg(test)]
mod keys;
#[cfg(test)]
pub mod picture_equality;
#[cfg(test)]
mod pictures;
#[cfg(test)]
mod printing;
#[cfg(test)]
mod round_trips;
#[cfg(test)]
mod rows;
#[cfg(test)]
mod said;
#[cfg(test)]
mod sets;
#[cfg(test)]
mod values;
#[cfg(test)]
mod writing;

#[cfg(test)]
use examples::documents::algorithm;
#[cfg(test)]
use std::fmt::Debug;
#[cfg(test)]
use std::process::Abort;

/// Fails the test unless the two are equal.
// A call of this takes the prover a fraction of the time that `assert_eq!` takes in line.
#[cfg(test)]
fn assert_equal<T: PartialEq + Debug>(rt: &impl Abort, found: &T, wanted: &T) {
    assert_eq!(rt; *found, *wanted);
}

/// Fails the test unless the two are equal, and names the case.
#[cfg(test)]
fn assert_equal_for<C: Debug, T: PartialEq + Debug>(
    rt: &impl Abort,
    case: &C,
    found: &T,
    wanted: &T,
) {
    assert_eq!(rt; *found, *wanted, "of {case:?}");
}

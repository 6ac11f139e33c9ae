//! The calls of `sec1` as a benchmark makes them: exports over slices, each with one number that
//! sums up what the call did, so that the same job by other code can be compared. If a call fails,
//! the number is 0.
#![tactic(auto)]

mod containers;
mod der;
mod keys;
mod points;

/// Returns 0: what a call takes that does nothing.
#[unsafe(no_mangle)]
pub extern "C" fn bench_empty(_input: &[u8]) -> usize {
    0
}

/// The length of the bytes and the last of them, added up; 0 if there are none.
fn length_and_last(bytes: &[u8]) -> usize {
    match bytes.last() {
        Some(last) => bytes.len().wrapping_add(usize::from(*last)),
        None => 0,
    }
}

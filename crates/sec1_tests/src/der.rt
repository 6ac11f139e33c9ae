//! Tests of `sec1_der`.
#[cfg(test)]
pub mod checks;
#[cfg(test)]
mod nested;
#[cfg(test)]
mod printing;
#[cfg(test)]
mod reading;
#[cfg(test)]
mod records;
#[cfg(test)]
mod writing;

//! The calls of points that allocate.
ghost use Rattle.std.specs.Prelude.{◌<◌, ◌^◌};
ghost use Rattle.sec1.specs.Points.{Fits};

use crate::calls::{Outcome, sum_of, tried};
use crate::words::{joined, number, word};
use sec1::{EncodedPoint, Error};
use serde_json::Value;
use std::alloc::{AllocError, Global};

/// Returns what a call gave that has an error.
fn failed(error: Error) -> Outcome {
    match error {
        Error::Memory => Outcome::Memory,
        _ => Outcome::Other,
    }
}

/// Returns what a call gave that makes a text.
fn of_text(res: sec1::Result<String>) -> Outcome {
    match res {
        Ok(text) => sum_of(text.as_bytes()),
        Err(error) => failed(error),
    }
}

/// Returns what a call gave that makes a value of JSON.
fn of_json(res: sec1::Result<Value>) -> Outcome {
    match res {
        Ok(Value::String(text)) => sum_of(text.as_bytes()),
        Ok(_) => Outcome::Other,
        Err(error) => failed(error),
    }
}

/// Returns the ends of the calls of this point.
fn ends<const N: usize, const L: usize>(
    alloc: Global,
    point: &EncodedPoint<N, L>,
) -> Result<String, AllocError>
    requires fits { Fits N L }
    requires size { L < 2 ^ 62 }
{
    let bytes = tried(alloc, "to_bytes", || match point.to_bytes(alloc) {
        Ok(bytes) => sum_of(bytes.as_slice()),
        Err(error) => failed(error),
    });
    let lower = tried(alloc, "to_lower_hex", || of_text(point.to_lower_hex(alloc)));
    let upper = tried(alloc, "to_upper_hex", || of_text(point.to_upper_hex(alloc)));
    let json = tried(alloc, "to_json", || of_json(point.to_json(alloc)));
    let shown = tried(alloc, "Display", || match format!(in alloc; "{point}") {
        Ok(text) => sum_of(text.as_bytes()),
        Err(_) => Outcome::Memory,
    });
    joined(
        alloc,
        "",
        ["point".to_string(alloc), bytes, lower, upper, json, shown],
    )
}

/// Returns the ends of the calls of the point with these bytes.
fn ends_of<const N: usize, const L: usize>(
    alloc: Global,
    bytes: &[u8],
) -> Result<String, AllocError>
    requires fits { Fits N L }
    requires size { L < 2 ^ 62 }
{
    match EncodedPoint::<N, L>::from_bytes(bytes) {
        Ok(point) => ends(alloc, &point),
        Err(_) => "no point".to_string(alloc),
    }
}

/// Returns the line for a point.
pub fn answer(alloc: Global, rest: &[u8]) -> Result<String, AllocError> {
    let (size, digits) = word(rest);
    match hex::decode(alloc, digits) {
        Ok(bytes) => ends_at(alloc, number(size), &bytes),
        Err(_) => "not hexadecimal".to_string(alloc),
    }
}

/// Returns the ends of the calls of the point with these bytes, at field elements of `size` bytes.
fn ends_at(alloc: Global, size: usize, bytes: &[u8]) -> Result<String, AllocError> {
    match size {
        5 => ends_of::<5, 11>(alloc, bytes),
        20 => ends_of::<20, 41>(alloc, bytes),
        24 => ends_of::<24, 49>(alloc, bytes),
        28 => ends_of::<28, 57>(alloc, bytes),
        32 => ends_of::<32, 65>(alloc, bytes),
        40 => ends_of::<40, 81>(alloc, bytes),
        48 => ends_of::<48, 97>(alloc, bytes),
        64 => ends_of::<64, 129>(alloc, bytes),
        66 => ends_of::<66, 133>(alloc, bytes),
        _ => "no such size".to_string(alloc),
    }
}

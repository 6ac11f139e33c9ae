//! Points over a field of 256 bits. Calls on points that were read before are made for each of 64
//! points, many times over, so that reading the points counts for little.
use crate::length_and_last;
use sec1::Result;
use sec1::point::EncodedPoint32;
use std::alloc::Global;
use std::cmp::Ordering;
use std::str::{FromStr, from_utf8};

/// How many points the calls on many points take.
const COUNT: usize = 64;

/// The length of an uncompressed point.
const LEN: usize = 65;

/// Returns the point, as a call that isn't inlined does.
#[inline(never)]
fn read(input: &[u8]) -> Result<EncodedPoint32> {
    EncodedPoint32::from_bytes(input)
}

/// Returns the compressed point, as a call that isn't inlined does.
#[inline(never)]
fn compress(point: &EncodedPoint32) -> EncodedPoint32 {
    point.compress()
}

/// Returns the order of two points, as a call that isn't inlined does.
#[inline(never)]
fn order(first: &EncodedPoint32, second: &EncodedPoint32) -> Ordering {
    first.cmp(second)
}

/// Returns `true` if the points are the same, as a call that isn't inlined does.
#[inline(never)]
fn same(first: &EncodedPoint32, second: &EncodedPoint32) -> bool {
    first == second
}

/// Reads a point by a call that isn't inlined. Returns the length of its encoding and the last
/// byte, added up.
#[unsafe(no_mangle)]
pub extern "C" fn bench_point_read(input: &[u8]) -> usize {
    match read(input) {
        Ok(point) => length_and_last(point.as_bytes()),
        Err(_) => 0,
    }
}

/// Reads a point as [`bench_point_read`] does, by a call that may be inlined.
#[unsafe(no_mangle)]
pub extern "C" fn bench_point_read_inline(input: &[u8]) -> usize {
    match EncodedPoint32::from_bytes(input) {
        Ok(point) => length_and_last(point.as_bytes()),
        Err(_) => 0,
    }
}

/// Reads a point and copies its encoding. Returns the length of the copy.
#[unsafe(no_mangle)]
pub extern "C" fn bench_point_copy(alloc: Global, input: &[u8]) -> usize {
    match EncodedPoint32::from_bytes(input) {
        Ok(point) => match point.to_bytes(alloc) {
            Ok(bytes) => bytes.len(),
            Err(_) => 0,
        },
        Err(_) => 0,
    }
}

/// Reads a point from hexadecimal text, `rounds` times. Returns the sum of the lengths and last
/// bytes.
#[unsafe(no_mangle)]
pub extern "C" fn bench_point_parse(input: &[u8], rounds: usize) -> usize {
    let Ok(text) = from_utf8(input) else {
        return 0;
    };
    let mut sum: usize = 0;
    for _ in 0..rounds {
        if let Ok(point) = EncodedPoint32::from_str(text) {
            sum = sum.wrapping_add(length_and_last(point.as_bytes()));
        }
    }
    sum
}

/// Reads a point and makes its hexadecimal text. Returns the length of the text.
#[unsafe(no_mangle)]
pub extern "C" fn bench_point_text(alloc: Global, input: &[u8]) -> usize {
    match EncodedPoint32::from_bytes(input) {
        Ok(point) => match point.to_upper_hex(alloc) {
            Ok(text) => text.len(),
            Err(_) => 0,
        },
        Err(_) => 0,
    }
}

/// Reads a point and prints it to a text. Returns the length of the text.
#[unsafe(no_mangle)]
pub extern "C" fn bench_point_print(alloc: Global, input: &[u8]) -> usize {
    match EncodedPoint32::from_bytes(input) {
        Ok(point) => match point.to_string(alloc) {
            Ok(text) => text.len(),
            Err(_) => 0,
        },
        Err(_) => 0,
    }
}

/// The points with these encodings, one after the other; the identity if one is missing.
fn points(input: &[u8]) -> [EncodedPoint32; COUNT] {
    let mut points = [EncodedPoint32::identity(); COUNT];
    let mut rest = input;
    for i in 0..COUNT {
        if rest.len() < LEN {
            break;
        }
        let (front, after) = rest.split_at(LEN);
        if let Ok(point) = EncodedPoint32::from_bytes(front) {
            points[i] = point;
        }
        rest = after;
    }
    points
}

/// Copies the encoding of the point to the beginning of the slice, if it has room. Returns the
/// length of the encoding.
fn copy_front(point: &EncodedPoint32, out: &mut [u8]) -> usize {
    let bytes = point.as_bytes();
    if bytes.len() <= out.len() {
        out[..bytes.len()].copy_from_slice(bytes);
    }
    bytes.len()
}

/// Compresses a point by a call that isn't inlined, and copies the encoding.
fn copy_compressed(point: &EncodedPoint32, out: &mut [u8]) -> usize {
    copy_front(&compress(point), out)
}

/// Compresses a point by a call that may be inlined, and copies the encoding.
fn copy_compressed_inline(point: &EncodedPoint32, out: &mut [u8]) -> usize {
    copy_front(&point.compress(), out)
}

/// Compresses 64 points, `rounds` times, and copies each encoding into the slice. Returns the sum
/// of the lengths.
#[unsafe(no_mangle)]
pub extern "C" fn bench_points_compress(input: &[u8], out: &mut [u8], rounds: usize) -> usize {
    let points = points(input);
    let mut sum: usize = 0;
    for _ in 0..rounds {
        for i in 0..COUNT {
            sum = sum.wrapping_add(copy_compressed(&points[i], out));
        }
    }
    sum
}

/// Compares each of 64 points with the next, `rounds` times. Returns how often it is less.
#[unsafe(no_mangle)]
pub extern "C" fn bench_points_cmp(input: &[u8], rounds: usize) -> usize {
    let points = points(input);
    let mut sum: usize = 0;
    for _ in 0..rounds {
        for i in 1..COUNT {
            if order(&points[i - 1], &points[i]) == Ordering::Less {
                sum = sum.wrapping_add(1);
            }
        }
    }
    sum
}

/// Compares each of 64 points with the next, `rounds` times. Returns how often they are equal.
#[unsafe(no_mangle)]
pub extern "C" fn bench_points_eq(input: &[u8], rounds: usize) -> usize {
    let points = points(input);
    let mut sum: usize = 0;
    for _ in 0..rounds {
        for i in 1..COUNT {
            if same(&points[i - 1], &points[i]) {
                sum = sum.wrapping_add(1);
            }
        }
    }
    sum
}

/// Compresses points as [`bench_points_compress`] does, by calls that may be inlined.
#[unsafe(no_mangle)]
pub extern "C" fn bench_points_compress_inline(
    input: &[u8],
    out: &mut [u8],
    rounds: usize,
) -> usize {
    let points = points(input);
    let mut sum: usize = 0;
    for _ in 0..rounds {
        for i in 0..COUNT {
            sum = sum.wrapping_add(copy_compressed_inline(&points[i], out));
        }
    }
    sum
}

/// Compares points as [`bench_points_eq`] does, by calls that may be inlined.
#[unsafe(no_mangle)]
pub extern "C" fn bench_points_eq_inline(input: &[u8], rounds: usize) -> usize {
    let points = points(input);
    let mut sum: usize = 0;
    for _ in 0..rounds {
        for i in 1..COUNT {
            if points[i - 1] == points[i] {
                sum = sum.wrapping_add(1);
            }
        }
    }
    sum
}

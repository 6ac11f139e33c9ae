//! The words of a line.

use std::alloc::{AllocError, Global};

/// Returns the bytes before the first blank, and those after it.
pub fn word(line: &[u8]) -> (&[u8], &[u8]) {
    for count in 0..line.len() {
        if line[count] == b' ' {
            return (&line[..count], &line[count + 1..]);
        }
    }
    (line, &line[line.len()..])
}

/// Returns the number with these decimal digits; other bytes are skipped.
pub fn number(digits: &[u8]) -> usize {
    let mut value = 0usize;
    for &digit in digits.iter() {
        if digit.is_ascii_digit() {
            value = value
                .saturating_mul(10)
                .saturating_add(usize::from(digit & 15));
        }
    }
    value
}

/// Returns the texts with the separator between each two of them, or the first of their errors.
pub fn joined<const N: usize>(
    alloc: Global,
    separator: &str,
    texts: [Result<String, AllocError>; N],
) -> Result<String, AllocError> {
    let (mut line, mut before) = (String::new(alloc), "");
    for text in texts.iter() {
        line.push_str(before)?;
        match text {
            Ok(text) => line.push_str(text)?,
            Err(error) => return Err(*error),
        }
        before = separator;
    }
    Ok(line)
}

//! What many tests call. None of these has a contract, so a test doesn't carry those of the calls
//! inside, or of a macro in line, which takes the prover a fraction of the time.
use sec1_der::{
    DecodeValue, EncodeValue, ErrorKind, Result, SecretDocument, Tagged, UniqueContent,
    encode_to_slice, encoded_len, from_der, read_der, to_der,
};
use std::alloc::{AllocError, Global};
use std::fmt::{Debug, Display};
use std::process::Abort;

/// What a call that prints returns.
type Printed = std::result::Result<String, AllocError>;

/// Fails the test unless the two are equal.
pub fn assert_equal<T: PartialEq + Debug>(rt: &impl Abort, found: &T, wanted: &T) {
    assert_eq!(rt; *found, *wanted);
}

/// Fails the test unless the two are equal, and names the case.
pub fn assert_equal_for<C: Debug, T: PartialEq + Debug>(
    rt: &impl Abort,
    case: &C,
    found: &T,
    wanted: &T,
) {
    assert_eq!(rt; *found, *wanted, "of {case:?}");
}

/// Fails the test, and names the case, unless the condition is true.
pub fn assert_for<C: Debug>(rt: &impl Abort, case: &C, condition: bool) {
    assert!(rt; condition, "of {case:?}");
}

/// Returns the kind of the error, if there is one.
pub fn kind_of<T: Drop>(outcome: Result<T>) -> Option<ErrorKind> {
    match outcome {
        Ok(_) => None,
        Err(error) => Some(error.kind()),
    }
}

/// Reads a value from its whole encoding.
pub fn read<'a, T: DecodeValue<'a> + Tagged + Drop>(bytes: &'a [u8]) -> Result<T> {
    from_der(bytes)
}

/// Returns the kind of the error by which the bytes are refused.
pub fn refusal_of<'a, T: DecodeValue<'a> + Tagged + Drop>(bytes: &'a [u8]) -> Option<ErrorKind> {
    kind_of(from_der::<T>(bytes))
}

/// Writes the value at the front of the slice, and returns the bytes written.
pub fn write<'r, T: EncodeValue + Tagged>(value: &T, room: &'r mut [u8]) -> Result<&'r [u8]> {
    let count = encode_to_slice(value, room)?;
    Ok(&room[..count])
}

/// Fails the test unless the value has this encoding, and this is the length that is given for it.
pub fn assert_written<T: EncodeValue + Tagged>(
    rt: &impl Abort,
    alloc: Global,
    value: &T,
    wanted: &[u8],
) {
    let (bytes, length) = (to_der(alloc, value).ok(), encoded_len(value).ok());
    assert_equal(
        rt,
        &(bytes.as_deref(), length),
        &(Some(wanted), Some(wanted.len())),
    );
}

/// Returns the bytes as a document.
pub fn document(alloc: Global, bytes: &[u8]) -> Result<SecretDocument> {
    SecretDocument::from_der(alloc, bytes)
}

/// Fails the test unless each proper prefix of the bytes is refused as Truncated.
fn assert_prefixes_refused<'a, T>(rt: &impl Abort, bytes: &'a [u8])
where
    T: DecodeValue<'a> + Tagged + Drop,
{
    for length in 0..bytes.len() {
        let refused = refusal_of::<T>(&bytes[..length]);
        assert_equal_for(rt, &length, &refused, &Some(ErrorKind::Truncated));
    }
}

/// Reads a value, and fails the test unless it has this encoding, and each proper prefix of the
/// bytes is refused as Truncated.
pub fn read_and_write<'a, T>(rt: &impl Abort, alloc: Global, bytes: &'a [u8]) -> Result<T>
where
    T: DecodeValue<'a> + EncodeValue + Tagged + UniqueContent + Drop,
{
    let value: T = read_der(bytes)?;
    assert_written(rt, alloc, &value, bytes);
    assert_prefixes_refused::<T>(rt, bytes);
    Ok(value)
}

/// Fails the test unless the value is printed as this text by `{}`.
pub fn assert_shows<R: Abort + AllocGlobal, T: Display>(rt: &R, value: &T, text: &str) {
    let shown = value.to_string(rt.alloc()).ok();
    assert_equal(rt, &shown.as_deref(), &Some(text));
}

/// Fails the test unless what was printed is this text.
pub fn assert_printed(rt: &impl Abort, printed: Printed, text: &str) {
    assert_equal(rt, &printed.expect(rt, "no memory").as_str(), &text);
}

/// Fails the test unless each text between two `|` of what was printed is this one.
pub fn assert_printed_alike(rt: &impl Abort, printed: Printed, text: &str) {
    let printed = printed.expect(rt, "no memory");
    for found in printed.split('|') {
        assert_equal(rt, &found, &text);
    }
}

/// Fails the test unless the value is printed as the text by `{:?}`, and as the lines by `{:#?}`.
pub fn assert_debug_texts<R: Abort + AllocGlobal>(
    rt: &R,
    value: &impl Debug,
    text: &str,
    lines: &str,
) {
    assert_printed(rt, format!(in rt.alloc(); "{value:?}"), text);
    assert_printed(rt, format!(in rt.alloc(); "{value:#?}"), lines);
}

/// Fails the test unless this is the text by `{}`, whatever options are set.
pub fn assert_displayed<R: Abort + AllocGlobal>(rt: &R, value: &impl Display, text: &str) {
    let texts = format!(in rt.alloc();
        "{value}|{value:#}|{value:.1}|{value:.3}|{value:>9}|{value:<+020}|{value:*^40}|{value:>200}"
    );
    assert_printed_alike(rt, texts, text);
}

/// Fails the test unless these are the texts by `{:?}`, with a width, a precision, a sign and
/// zeros, one after the other, and the lines by `{:#?}`: those that rustc prints of a derived
/// `Debug` of the same fields.
pub fn assert_debug_options<R: Abort + AllocGlobal, T: Debug>(
    rt: &R,
    value: &T,
    texts: &str,
    lines: &str,
) {
    let alloc = rt.alloc();
    let printed = format!(in alloc; "{value:?}|{value:5?}|{value:.1?}|{value:+?}|{value:05?}");
    assert_printed(rt, printed, texts);
    assert_printed(rt, format!(in alloc; "{value:#?}"), lines);
}

/// Fails the test unless this is the text by `{:?}`, whatever options are set.
pub fn assert_debugged<R: Abort + AllocGlobal, T: Debug>(rt: &R, value: &T, text: &str) {
    let printed = format!(in rt.alloc();
        "{value:?}|{value:>20?}|{value:.3?}|{value:*^20?}|{value:+?}|{value:05?}|{value:>99?}"
    );
    assert_printed_alike(rt, printed, text);
}

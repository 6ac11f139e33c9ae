//! Points as hexadecimal text, JSON and owned bytes.

ghost use Rattle.std.specs.Fmt.{WritesStyledOnOk};
ghost use Rattle.std.specs.Prelude.{◌≡◌, ◌↔◌, ◌*◌, ◌/◌, ◌<◌, ◌≤◌, ℕ, List, length, slice_index};
ghost use Rattle.std.specs.Prelude.{Some, IfOk, IsTrue, MatchOption, MatchResult, not, ◌&&◌};
ghost use Rattle.std.specs.Char.{is_ascii_uppercase, is_ascii_lowercase};
ghost use Rattle.std.specs.List.{list_any};
ghost use Rattle.std.specs.String.{string_bytes, string_len};
ghost use Rattle.std.specs.Box.{boxed_slice_items};
ghost use Rattle.hex.specs.Hex.{encode_upper, encode_lower, upper_digits, hex_digit_value};
ghost use Rattle.hex.specs.Hex.{decode_sized, IsBytes};
ghost use Rattle.serde_json.specs.Data.{string};
ghost use Rattle.serde_json.specs.View.{view};
ghost use Rattle.sec1.specs.Points.{encoding};
ghost use Rattle.sec1.specs.HexTexts.{IsHexOf};
ghost use Rattle.sec1.specs.EncodedPoints.{point_of, ReadsPoint};
ghost use Rattle.sec1.specs.declared.error.Error.TheVariants.{Memory};

use super::EncodedPoint;
use crate::error::{Error, Result};
use serde_json::Value;
use std::alloc::Global;
use std::boxed::BoxedSlice;
use std::fmt;
use std::str::{FromStr, from_utf8};

impl<const N: usize, const L: usize> EncodedPoint<N, L> {
    /// Returns a copy of the encoding.
    ///
    /// # Errors
    ///
    /// [`Error::Memory`] if the allocation fails.
    pub fn to_bytes(&self, alloc: Global) -> Result<BoxedSlice<u8>>
        ensures { MatchResult result
            (λ bytes. boxed_slice_items bytes ≡ encoding N (point_of self.now))
            (λ e. e ≡ Memory) }
    {
        BoxedSlice::from_slice(alloc, self.as_bytes()).map_err(|_| Error::Memory)
    }

    /// Returns the encoding in hexadecimal, with the letters a to f.
    ///
    /// # Errors
    ///
    /// [`Error::Memory`] if the allocation fails.
    #[tactic(auto, using(crate::proofs::HexLemmas::hex_length))]
    pub fn to_lower_hex(&self, alloc: Global) -> Result<String>
        ensures text { MatchResult result
            (λ text. string_bytes text ≡ encode_lower (encoding N (point_of self.now)))
            (λ e. e ≡ Memory) }
        // two digits for each byte
        ensures len { IfOk result
            (λ text. string_len text ≡ 2 * length (encoding N (point_of self.now))) }
    {
        hex::encode(alloc, self.as_bytes()).map_err(|_| Error::Memory)
    }

    /// Returns the encoding in hexadecimal, with the letters A to F.
    ///
    /// # Errors
    ///
    /// [`Error::Memory`] if the allocation fails.
    #[tactic(auto, using(crate::proofs::HexLemmas::hex_length))]
    pub fn to_upper_hex(&self, alloc: Global) -> Result<String>
        ensures text { MatchResult result
            (λ text. string_bytes text ≡ encode_upper (encoding N (point_of self.now)))
            (λ e. e ≡ Memory) }
        // two digits for each byte
        ensures len { IfOk result
            (λ text. string_len text ≡ 2 * length (encoding N (point_of self.now))) }
    {
        hex::encode_upper(alloc, self.as_bytes()).map_err(|_| Error::Memory)
    }

    /// Returns a JSON string of the encoding in hexadecimal, with the letters A to F.
    ///
    /// # Errors
    ///
    /// [`Error::Memory`] if the allocation fails.
    pub fn to_json(&self, alloc: Global) -> Result<Value>
        ensures { MatchResult result
            (λ json. view json ≡ string (encode_upper (encoding N (point_of self.now))))
            (λ e. e ≡ Memory) }
    {
        Ok(Value::String(self.to_upper_hex(alloc)?))
    }

    /// Reads a point from a JSON string of its encoding in hexadecimal, as
    /// [`from_str`](EncodedPoint::from_str) does.
    ///
    /// # Errors
    ///
    /// [`Error::PointEncoding`] for any other string, and for any other JSON value.
    pub fn from_json(value: &Value) -> Result<Self>
        ensures { ReadsPoint (λ bytes. (text : List ℕ) × (view value.now ≡ string text)
            × IsHexOf text bytes) result }
    {
        match value {
            Value::String(text) => Self::from_digits(text.as_str().as_bytes()),
            _ => Err(Error::PointEncoding),
        }
    }

    /// Reads a point from its encoding in hexadecimal digits.
    fn from_digits(text: &[u8]) -> Result<Self>
        ensures { ReadsPoint (IsHexOf text.now) result }
    {
        let len = text.len() / 2;
        let mut bytes = [0; L];
        if len > L || !decode_digits(text, &mut bytes[..len]) {
            return Err(Error::PointEncoding);
        }
        Self::from_bytes(&bytes[..len])
    }
}

/// Decodes two hexadecimal digits for each byte, and returns `true` if they are digits with letters
/// of one case.
#[tactic(auto, using(crate::proofs::HexLemmas::decoded))]
fn decode_digits(text: &[u8], out: &mut [u8]) -> bool
    requires { length out.old ≡ length text.now / 2 }
    ensures { (bytes : List ℕ) → (IsHexOf text.now bytes × IsBytes bytes)
        ↔ (IsTrue result × (out.new ≡ bytes)) }
{
    is_one_case(text) && decode_pairs(text, out)
}

/// Decodes two hexadecimal digits for each byte, and returns `true` if all are digits. The crate
/// `hex` has branches for each digit, most of which a processor predicts wrongly.
fn decode_pairs(text: &[u8], out: &mut [u8]) -> bool
    requires { length out.old ≡ length text.now / 2 }
    ensures { MatchResult (decode_sized text.now (length out.old))
        (λ bytes. IsTrue result × (out.new ≡ bytes)) (λ _. ¬ IsTrue result) }
{
    // No early exit, so that the compiler decodes many digits at once.
    let mut are_digits = text.len() % 2 == 0;
    for i in 0..out.len() {
        let high = digit_value(text[2 * i]);
        let low = digit_value(text[2 * i + 1]);
        are_digits &= high < 16;
        are_digits &= low < 16;
        out[i] = high % 16 * 16 + low % 16;
    }
    are_digits
}

/// Returns the value of a hexadecimal digit, and 255 for any other byte.
#[inline(always)]
fn digit_value(c: u8) -> u8
    ensures { MatchOption (hex_digit_value c) (result ≡ 255) (λ value. result ≡ value) }
{
    match c {
        b'0'..=b'9' => c - b'0',
        b'A'..=b'F' => c - b'A' + 10,
        b'a'..=b'f' => c - b'a' + 10,
        _ => 255,
    }
}

/// Returns `true` if no letter is upper case, or none is lower case.
#[tactic(auto, using(crate::proofs::HexLemmas::letters_seen))]
fn is_one_case(text: &[u8]) -> bool
    ensures { result ≡ not (list_any is_ascii_uppercase text.now
        && list_any is_ascii_lowercase text.now) }
{
    // No early exit, so that the compiler tests many bytes at once.
    let mut has_upper = false;
    let mut has_lower = false;
    for c in text {
        has_upper |= c.is_ascii_uppercase();
        has_lower |= c.is_ascii_lowercase();
    }
    !has_upper || !has_lower
}

/// Reads a point from its encoding in hexadecimal, with letters of one case.
///
/// # Errors
///
/// [`Error::PointEncoding`] for any other text, or if N and L don't [fit](EncodedPoint::fits).
///
/// # Examples
///
/// ```
/// let point = EncodedPoint32::from_str(text)?;
/// ```
impl<const N: usize, const L: usize> FromStr for EncodedPoint<N, L> {
    type Err = Error;

    ghost from_str_gives = { λ text result. ReadsPoint (IsHexOf text) result };

    fn from_str(text: &str) -> Result<Self> {
        Self::from_digits(text.as_bytes())
    }
}

/// Prints the encoding in hexadecimal, with the letters A to F, whatever options are set.
impl<const N: usize, const L: usize> fmt::Display for EncodedPoint<N, L> {
    ghost output = { λ point. Some (encode_upper (encoding N (point_of point))) };

    ghost styled_output = { λ point _. Some (encode_upper (encoding N (point_of point))) };

    #[tactic(auto, using(crate::proofs::HexLemmas::printed))]
    fn fmt<W: fmt::Write>(&self, f: &mut fmt::Formatter<W>) -> fmt::Result {
        print_upper(f, self.as_bytes())
    }
}

/// How many bytes are printed at once: all of a point over 256 bits, and half of one over 521.
const AT_ONCE: usize = 67;

/// Prints bytes in hexadecimal, with the letters A to F, whatever options are set.
#[tactic(auto, using(crate::proofs::HexLemmas::encode_parts))]
fn print_upper<W: fmt::Write>(f: &mut fmt::Formatter<W>, bytes: &[u8]) -> fmt::Result
    ensures { WritesStyledOnOk W.write_str_gives f.old result (encode_upper bytes.now) f.new }
{
    if bytes.len() <= AT_ONCE {
        return print_few(f, bytes);
    }
    let (front, rest) = bytes.split_at(AT_ONCE);
    print_few(f, front)?;
    print_upper(f, rest)
}

/// Prints at most 67 bytes in hexadecimal, by one call.
fn print_few<W: fmt::Write>(f: &mut fmt::Formatter<W>, bytes: &[u8]) -> fmt::Result
    requires { length bytes.now ≤ 67 }
    ensures { WritesStyledOnOk W.write_str_gives f.old result (encode_upper bytes.now) f.new }
{
    let mut buffer = [0; 2 * AT_ONCE];
    let digits = &mut buffer[..2 * bytes.len()];
    put_digits(bytes, digits);
    match from_utf8(digits) {
        Ok(text) => f.write_str(text),
        Err(_) => unreachable!(),
    }
}

/// Writes each byte as two digits, with the letters A to F.
#[inline(always)]
fn put_digits(bytes: &[u8], digits: &mut [u8])
    requires { length digits.old ≡ 2 * length bytes.now }
    ensures { digits.new ≡ encode_upper bytes.now }
{
    for i in 0..bytes.len() {
        digits[2 * i] = upper_digit(bytes[i] / 16);
        digits[2 * i + 1] = upper_digit(bytes[i] % 16);
    }
}

/// Returns the hexadecimal digit of a number below 16, with the letters A to F.
#[inline(always)]
fn upper_digit(n: u8) -> u8
    requires { n < 16 }
    ensures { result ≡ slice_index upper_digits n }
{
    if n < 10 { b'0' + n } else { b'A' - 10 + n }
}

//! INTEGER that isn't negative, as a number.
ghost use Rattle.std.specs.Prelude.{◌≡◌, ◌<◌, ◌≤◌, ◌^◌, ℕ, List, true, false, Some, IfOk};
ghost use Rattle.std.specs.Prelude.{MatchOption};
ghost use Rattle.std.specs.Int.Digits.{digits_of};
ghost use Rattle.sec1_der.specs.Contents.{value_unless};
ghost use Rattle.sec1_der.specs.Elements.{number_of};
ghost use Rattle.sec1_der.specs.Faults.{HasFault};
ghost use Rattle.der_types.specs.Integers.{is_unsigned, unsigned_content};
ghost use Rattle.der_types.specs.Contents.{new_fault};

use crate::integer::is_unsigned;
use sec1_der::{
    BackWriter, DecodeValue, EncodeValue, ErrorKind, Length, Result, SliceReader, Tag, Tagged,
    UniqueContent, ValueContent,
};
use std::marker::Model;

/// An INTEGER that isn't negative, which borrows its content (X.690 section 8.3). A contract sees
/// the number.
#[derive(Drop)]
pub struct Unsigned<'a> {
    bytes: &'a [u8],
}

impl<'a> Model for Unsigned<'a> {
    ghost Value = { ℕ };

    ghost view = { λ number. number_of number.bytes.now };

    ghost invariant = { λ number. unsigned_content (number_of number.bytes.now)
        ≡ number.bytes.now };
}

impl<'a> Unsigned<'a> {
    /// Returns the number with this content.
    ///
    /// # Errors
    ///
    /// Overlength if there are more than 268,435,455 bytes; then Value if they aren't the content
    /// of a number that isn't negative.
    pub fn new(bytes: &'a [u8]) -> Result<Self>
        ensures value { IfOk result (λ number. unsigned_content number ≡ bytes.now) }
        ensures kind { HasFault result (new_fault is_unsigned bytes.now) }
    {
        Length::new(bytes.len())?;
        match Unsigned::from_content(bytes) {
            Some(number) => Ok(number),
            None => Err(ErrorKind::Value.into()),
        }
    }

    /// Returns the number with this content, if the bytes are one.
    #[tactic(auto, using(crate::proofs::UnsignedLemmas::numbers))]
    fn from_content(bytes: &'a [u8]) -> Option<Self>
        ensures { MatchOption result (is_unsigned bytes.now ≡ false)
            (λ number. (unsigned_content number ≡ bytes.now) × (is_unsigned bytes.now ≡ true)) }
    {
        if is_unsigned(bytes) {
            Some(Unsigned { bytes })
        } else {
            None
        }
    }

    /// Borrows the content.
    pub fn as_bytes(&self) -> &'a [u8]
        ensures { result.now ≡ unsigned_content self.now }
    {
        self.bytes
    }

    /// Borrows the digits of the number in base 256, the most significant first. There are none if
    /// the number is 0.
    #[tactic(auto, using(crate::proofs::UnsignedLemmas::digits_of_content))]
    pub fn digits(&self) -> &'a [u8]
        ensures { result.now ≡ digits_of 256 self.now }
    {
        match self.bytes.split_first() {
            Some((0, digits)) => digits,
            _ => self.bytes,
        }
    }

    /// Returns the number, if it is below 2^64.
    #[tactic(auto, using(crate::proofs::UnsignedLemmas::numbers))]
    pub fn to_u64(&self) -> Option<u64>
        ensures { MatchOption result (2 ^ 64 ≤ self.now)
            (λ number. (number ≡ self.now) × (self.now < 2 ^ 64)) }
    {
        number(self.bytes)
    }

    /// Returns the number again. It borrows the same content.
    pub fn reborrow(&self) -> Self
        ensures { result ≡ self.now }
    {
        Unsigned { bytes: self.bytes }
    }
}

/// Returns the number whose digits in base 256 are these, if it is below 2^64.
#[tactic(auto, using(crate::proofs::UnsignedLemmas::digit_steps))]
fn number(digits: &[u8]) -> Option<u64>
    ensures { MatchOption result (2 ^ 64 ≤ number_of digits.now)
        (λ number. (number ≡ number_of digits.now) × (number_of digits.now < 2 ^ 64)) }
{
    let mut number: u64 = 0;
    for digit in digits {
        number = number.checked_mul(256)?.checked_add(u64::from(*digit))?;
    }
    Some(number)
}

impl Tagged for Unsigned<'_> {
    ghost tag_byte = { 0x02 };

    fn fixed_tag() -> Tag
        ensures { result ≡ 0x02 }
    {
        Tag::INTEGER
    }
}

impl ValueContent for Unsigned<'_> {
    ghost content = { λ number. Some (unsigned_content number) };

    ghost fault = { λ bytes. value_unless (is_unsigned bytes) };
}

impl<'a> DecodeValue<'a> for Unsigned<'a> {
    #[tactic(auto, using(crate::proofs::UnsignedLemmas::numbers))]
    fn decode_value(reader: &mut SliceReader<'a>) -> Result<Self> {
        let bytes = reader.read_rest()?;
        match Unsigned::from_content(bytes) {
            Some(number) => Ok(number),
            None => Err(reader.fail(ErrorKind::Value)),
        }
    }
}

impl EncodeValue for Unsigned<'_> {
    fn value_len(&self) -> Result<Length> {
        Length::new(self.bytes.len())
    }

    fn encode_back(&self, writer: &mut BackWriter) -> Result<()> {
        self.value_len()?;
        writer.write(self.bytes)
    }

    fn prepend_value(&self, writer: &mut BackWriter) {
        writer.prepend(self.bytes);
    }
}

impl UniqueContent for Unsigned<'_> {
    #[tactic(auto, using(crate::proofs::UnsignedLemmas::numbers))]
    fn content_injective()
        ensures { (a b : ℕ) (bytes : List ℕ) → Some (unsigned_content a) ≡ Some bytes
            → Some (unsigned_content b) ≡ Some bytes → a ≡ b }
    {}
}

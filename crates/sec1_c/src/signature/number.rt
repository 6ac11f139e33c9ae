//! A number that a caller gives by its digits.
ghost use Rattle.std.specs.Prelude.{◌≡◌, ◌∷◌, ℕ, Some, if◌then◌else◌};
ghost use Rattle.std.specs.Int.Digits.{digits_of};
ghost use Rattle.der_types.specs.Integers.{is_unsigned, unsigned_content, with_sign};
ghost use Rattle.sec1_der.specs.Contents.{value_unless};
ghost use Rattle.sec1_der.specs.Elements.{number_of};

use sec1_der::{BackWriter, EncodeValue, ErrorKind, Length, Result, Tag, Tagged, ValueContent};
use std::marker::Model;

/// A number that isn't negative, which borrows its digits and is written as an INTEGER (X.690
/// section 8.3). A contract sees the number.
#[derive(Drop)]
pub struct Number<'a> {
    /// The digits in base 256, the most significant first, without a zero in front.
    digits: &'a [u8],
}

impl<'a> Model for Number<'a> {
    ghost Value = { ℕ };

    ghost view = { λ number. number_of number.digits.now };

    ghost invariant = { λ number. digits_of 256 (number_of number.digits.now)
        ≡ number.digits.now };
}

impl<'a> Number<'a> {
    /// Returns the number with these digits in base 256, the most significant first. Without digits
    /// it is 0.
    #[tactic(auto, using(crate::proofs::NumberLemmas::leading_digits))]
    pub fn new(digits: &'a [u8]) -> Self
        ensures { result ≡ number_of digits.now }
    {
        let Some((first, further)) = digits.split_first() else {
            return Number { digits };
        };
        if *first == 0 {
            return Number::new(further);
        }
        Number { digits }
    }

    /// Returns the number again. It borrows the same digits.
    pub fn reborrow(&self) -> Self
        ensures { result ≡ self.now }
    {
        Number {
            digits: self.digits,
        }
    }
}

/// Returns `true` if a zero stands in front of these digits in the content of an INTEGER: without
/// it there would be no byte, or bit 8 of the first one would make the number negative.
fn needs_zero(digits: &[u8]) -> bool
    ensures { with_sign digits.now ≡ (if result then 0 ∷ digits.now else digits.now) }
{
    match digits.first() {
        Some(first) => *first >= 0x80,
        None => true,
    }
}

impl Tagged for Number<'_> {
    ghost tag_byte = { 0x02 };

    fn fixed_tag() -> Tag
        ensures { result ≡ 0x02 }
    {
        Tag::INTEGER
    }
}

impl ValueContent for Number<'_> {
    ghost content = { λ number. Some (unsigned_content number) };

    ghost fault = { λ bytes. value_unless (is_unsigned bytes) };
}

impl EncodeValue for Number<'_> {
    fn value_len(&self) -> Result<Length> {
        Length::new(self.digits.len() + usize::from(needs_zero(self.digits)))
    }

    fn encode_back(&self, writer: &mut BackWriter) -> Result<()> {
        if writer.remaining() < self.value_len()?.get() {
            return Err(ErrorKind::Buffer.into());
        }
        self.prepend_value(writer);
        Ok(())
    }

    fn prepend_value(&self, writer: &mut BackWriter) {
        writer.prepend(self.digits);
        if needs_zero(self.digits) {
            writer.prepend(&[0]);
        }
    }
}

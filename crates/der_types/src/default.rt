//! A component with a default value (X.690 section 11.5).
ghost use Rattle.std.specs.Fmt.{debug_variant};
ghost use Rattle.std.specs.Prelude.{◌≡◌, ◌↔◌, ℕ, List, Some, IsTrue, codes};
ghost use Rattle.sec1_der.specs.Parts.{optional_tag};
ghost use Rattle.sec1_der.specs.Faults.{optional_fault};
ghost use Rattle.der_types.specs.Defaults.{defaulted_of, defaulted_begins, other_content};
ghost use Rattle.der_types.specs.Defaults.{other_fault};

use sec1_der::{
    BackWriter, DecodePart, DecodeValue, EncodePart, EncodeValue, ErrorKind, Length, Optional,
    Part, Result, SliceReader, Tag, Tagged, UniqueContent, UniquePart, ValueContent, encoded_len,
    known_encoded_len,
};
use std::marker::Model;

/// A type with a default value. To give a type another default in a component, wrap it in a type of
/// your own.
pub trait HasDefault: UniqueContent + Sized {
    /// The default value.
    ghost default: { Self };

    /// The content of the default value.
    ghost default_content: { List ℕ };

    /// Returns the default value.
    fn default_value() -> Self
        ensures { result ≡ default };

    /// Returns `true` if this is the default value.
    fn is_default(&self) -> bool
        ensures { IsTrue result ↔ (self.now ≡ default) };

    /// The content is that of the default value.
    ghost has_content: { Self.content default ≡ Some default_content };
}

/// A component with a default value, `A DEFAULT v`: absent if the value is the default, otherwise
/// the element of the value. A contract sees the value.
///
/// An element with the default value is refused as Value, after it has been read.
#[derive(Clone, Copy, Debug, PartialEq, Eq, Drop)]
pub struct Defaulted<A>(pub A);

impl<A> Model for Defaulted<A> {
    ghost Value = { A };

    ghost view = { λ part. part.0 };

    ghost inverse = { λ value. record { 0 = value } };
}

impl<A: HasDefault + Tagged> Part for Defaulted<A> {
    ghost bytes = { λ value. defaulted_of A.tag_byte A.default_content (A.content value) };

    ghost and_then = { optional_fault A.tag_byte (other_fault A.default_content A.fault) };

    ghost tags = { optional_tag A.tag_byte };

    ghost begins = { λ value. defaulted_begins A.tag_byte A.default_content (A.content value) };
}

impl<A: HasDefault + EncodeValue + Tagged> EncodePart for Defaulted<A> {
    fn part_len(&self) -> Result<Length> {
        A::content_injective();
        if self.0.is_default() {
            return Length::new(0);
        }
        Length::new(encoded_len(&self.0)?)
    }

    fn known_part_len(&self) -> usize {
        A::content_injective();
        if self.0.is_default() {
            return 0;
        }
        known_encoded_len(&self.0)
    }

    fn prepend_part(&self, writer: &mut BackWriter) {
        A::content_injective();
        if !self.0.is_default() {
            writer.prepend_element(&self.0);
        }
    }
}

impl<'a, A: HasDefault + DecodeValue<'a> + Tagged + Drop> DecodePart<'a> for Defaulted<A> {
    fn decode_part(reader: &mut SliceReader<'a>) -> Result<Self> {
        let part = Optional::<NotDefault<A>>::decode_part(reader)?;
        match part.0 {
            Some(value) => Ok(Defaulted(value.0)),
            None => Ok(Defaulted(A::default_value())),
        }
    }
}

impl<A: HasDefault + Tagged> UniquePart for Defaulted<A> {
    #[tactic(auto, using(crate::proofs::DefaultLemmas::defaulted_distinct))]
    fn bytes_injective() {
        A::content_injective();
        Optional::<NotDefault<A>>::bytes_injective();
    }
}

/// A value that isn't the default.
#[derive(Drop)]
struct NotDefault<A>(A);

impl<A> Model for NotDefault<A> {
    ghost Value = { A };

    ghost view = { λ part. part.0 };

    ghost inverse = { λ value. record { 0 = value } };
}

impl<A: Tagged> Tagged for NotDefault<A> {
    ghost tag_byte = { A.tag_byte };

    fn fixed_tag() -> Tag {
        A::fixed_tag()
    }
}

impl<A: HasDefault> ValueContent for NotDefault<A> {
    ghost content = { λ value. other_content A.default_content (A.content value) };

    ghost fault = { other_fault A.default_content A.fault };
}

impl<'a, A: HasDefault + DecodeValue<'a> + Drop> DecodeValue<'a> for NotDefault<A> {
    fn decode_value(reader: &mut SliceReader<'a>) -> Result<Self> {
        A::content_injective();
        let value = A::decode_value(reader)?;
        if value.is_default() {
            return Err(reader.fail(ErrorKind::Value));
        }
        Ok(NotDefault(value))
    }
}

impl<A: HasDefault> UniqueContent for NotDefault<A> {
    fn content_injective() {
        A::content_injective();
    }
}

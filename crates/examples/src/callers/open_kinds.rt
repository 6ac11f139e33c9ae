//! A type that leaves open by which kind its content is refused, and a record with such a part.
//! What is around and after the content is refused by a known kind all the same.
ghost use Rattle.std.specs.Prelude.{◌≡◌, ◌∷◌, [], ℕ, List, refl, Some, IsOkAnd, MatchResult};
ghost use Rattle.examples.specs.EvenOctets.{even_content, even_fault, is_even};
ghost use Rattle.sec1_der.specs.Elements.{element_of};
ghost use Rattle.sec1_der.specs.Errors.{IsReadingFault, Refuses};

use sec1_der::{
    BackWriter, DecodeValue, Distinct, EncodeValue, ErrorKind, FixedTag, Length, Record, Required,
    Result, SliceReader, Tag, Tagged, ValueContent, VersionOne, from_der,
};

/// An OCTET STRING of an even number of bytes. Bytes of an odd number have no encoding.
#[derive(Clone, Copy, Drop)]
pub struct Even<'a> {
    /// The bytes.
    pub bytes: &'a [u8],
}

impl Even<'_> {
    /// Returns `true` if the number of bytes is even.
    fn is_even(&self) -> bool
        ensures { result ≡ is_even self.now.bytes.now }
    {
        self.bytes.len() % 2 == 0
    }
}

impl Tagged for Even<'_> {
    ghost tag_byte = { 0x04 };

    fn fixed_tag() -> Tag
        ensures { result ≡ 0x04 }
    {
        Self::TAG
    }
}

impl FixedTag for Even<'_> {
    const TAG: Tag = Tag::OCTET_STRING;
}

impl ValueContent for Even<'_> {
    ghost content = { λ even. even_content even.bytes.now };

    ghost fault = { even_fault };
}

impl<'a> DecodeValue<'a> for Even<'a> {
    fn decode_value(reader: &mut SliceReader<'a>) -> Result<Self> {
        let even = Even {
            bytes: reader.read_rest()?,
        };
        if !even.is_even() {
            return Err(reader.fail(ErrorKind::Length));
        }
        Ok(even)
    }
}

impl EncodeValue for Even<'_> {
    fn value_len(&self) -> Result<Length> {
        if !self.is_even() {
            return Err(ErrorKind::Overlength.into());
        }
        Length::new(self.bytes.len())
    }

    fn encode_back(&self, writer: &mut BackWriter) -> Result<()> {
        self.value_len()?;
        writer.write(self.bytes)
    }
}

/// Returns the bytes of an OCTET STRING of an even number of them.
///
/// # Errors
///
/// Truncated, Tag, Length, TrailingData or Value if the input isn't such an element.
pub fn even_bytes(input: &[u8]) -> Result<&[u8]>
    ensures found { MatchResult result
        (λ bytes. element_of 0x04 (even_content bytes.now) ≡ Some input.now)
        (λ e. IsReadingFault e.kind) }
    ensures only { (bytes : List ℕ) → element_of 0x04 (even_content bytes) ≡ Some input.now
        → IsOkAnd result (λ found. found.now ≡ bytes) }
{
    let even: Even = from_der(input)?;
    Ok(even.bytes)
}

/// A label, and the version 1 after it.
#[derive(Clone, Copy, Drop)]
pub struct Labelled<'a> {
    /// The label.
    pub label: Even<'a>,
    /// The version.
    pub version: VersionOne,
}

impl<'a> Record for Labelled<'a> {
    type Parts = (Required<Even<'a>>, Required<VersionOne>);

    ghost parts = { λ value. (value.label, value.version) };

    ghost of_parts = { λ pairs. record { label = pairs.0; version = pairs.1 } };

    fn from_parts((label, version): Self::Parts) -> Self {
        Labelled {
            label: label.0,
            version: version.0,
        }
    }

    fn to_parts(&self) -> Self::Parts {
        (Required(self.label), Required(self.version))
    }

    ghost same = { λ _. refl };
}

impl Distinct for Labelled<'_> {
    ghost distinct = { refl };
}

/// Reads a label and its version.
#[tactic(auto, unfolding(sec1_der::specs::Elements::length_octets))]
pub fn label(input: &[u8]) -> Result<Labelled<'_>>
    ensures outer_tag { input.now ≡ 0x31 ∷ 0x00 ∷ [] → Refuses result ErrorKind.Tag }
    ensures no_label { input.now ≡ 0x30 ∷ 0x00 ∷ [] → Refuses result ErrorKind.Truncated }
    ensures other_version { input.now ≡ 0x30 ∷ 0x05 ∷ 0x04 ∷ 0x00 ∷ 0x02 ∷ 0x01 ∷ 0x02 ∷ []
        → Refuses result ErrorKind.Value }
    ensures second_tag { input.now ≡ 0x30 ∷ 0x05 ∷ 0x04 ∷ 0x00 ∷ 0x03 ∷ 0x01 ∷ 0x01 ∷ []
        → Refuses result ErrorKind.Tag }
    ensures rest { input.now ≡ 0x30 ∷ 0x05 ∷ 0x04 ∷ 0x00 ∷ 0x02 ∷ 0x01 ∷ 0x01 ∷ 0x00 ∷ []
        → Refuses result ErrorKind.TrailingData }
{
    from_der(input)
}

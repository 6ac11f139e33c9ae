//! OBJECT IDENTIFIER that borrows its content.
ghost use Rattle.std.specs.Prelude.{◌≡◌, ◌≤◌, ℕ, List, Some, None, MatchResult, length};
ghost use Rattle.sec1_der.specs.Identifiers.{arcs_of};
ghost use Rattle.sec1_der.specs.Contents.{identifier_fault};
ghost use Rattle.sec1_der.specs.Identifiers.{IsIdentifier, identifier_content};

use crate::object_identifier::is_identifier;
use crate::{
    Arcs, BackWriter, DecodeValue, EncodeValue, ErrorKind, FixedTag, Length, ObjectIdentifier,
    Result, SliceReader, Tag, Tagged, UniqueContent, ValueContent,
};
use std::marker::Model;

/// An OBJECT IDENTIFIER that borrows its content, which has 1 to 39 bytes (X.690 section 8.19). A
/// contract sees the arcs. The same contents are accepted as for an [`ObjectIdentifier`].
#[derive(Drop)]
pub struct IdentifierRef<'a> {
    bytes: &'a [u8],
}

impl<'a> Model for IdentifierRef<'a> {
    ghost Value = { List ℕ };

    ghost view = { λ identifier. arcs_of identifier.bytes.now };

    ghost invariant = { λ identifier.
        IsIdentifier (arcs_of identifier.bytes.now) identifier.bytes.now };
}

impl<'a> IdentifierRef<'a> {
    /// Returns the identifier with this content (X.690 section 8.19).
    ///
    /// # Errors
    ///
    /// Value if no identifier has this content, or if it has more than 39 bytes.
    #[tactic(auto, using(crate::proofs::IdentifierLemmas::held_contents))]
    pub fn from_bytes(bytes: &'a [u8]) -> Result<IdentifierRef<'a>>
        ensures exact { MatchResult result (λ arcs. IsIdentifier arcs bytes.now)
            (λ e. e.kind ≡ ErrorKind.Value) }
        ensures only { (arcs : List ℕ) → IsIdentifier arcs bytes.now → result ≡ Ok arcs }
    {
        if !is_identifier(bytes) {
            return Err(ErrorKind::Value.into());
        }
        Ok(IdentifierRef { bytes })
    }

    /// Borrows the identifier that an [`ObjectIdentifier`] holds.
    #[tactic(auto, using(crate::proofs::IdentifierLemmas::held_contents))]
    pub fn of(identifier: &'a ObjectIdentifier) -> IdentifierRef<'a>
        ensures { result ≡ identifier.now }
    {
        IdentifierRef {
            bytes: identifier.as_bytes(),
        }
    }

    /// Returns the identifier again. It borrows the same content.
    pub fn reborrow(&self) -> Self
        ensures { result ≡ self.now }
    {
        IdentifierRef { bytes: self.bytes }
    }

    /// Returns the identifier with a copy of its content.
    pub fn to_identifier(&self) -> ObjectIdentifier
        ensures { result ≡ self.now }
    {
        ObjectIdentifier::of_content(self.bytes)
    }

    /// Borrows the content, 1 to 39 bytes.
    #[tactic(auto, using(crate::proofs::ContentFaultLemmas::identifier_taken))]
    pub fn as_bytes(&self) -> &'a [u8]
        ensures { IsIdentifier self.now result.now × (identifier_fault result.now ≡ None) }
    {
        self.bytes
    }

    /// Returns the arcs as numbers, of which there are 2 to 40.
    #[tactic(auto, using(crate::proofs::IdentifierLemmas::arcs_of_content))]
    pub fn arcs(&self) -> Arcs<'a>
        ensures arcs { result ≡ self.now }
        ensures count { (2 ≤ length result) × (length result ≤ 40) }
    {
        Arcs::of_content(self.bytes)
    }
}

impl Tagged for IdentifierRef<'_> {
    ghost tag_byte = { 0x06 };

    fn fixed_tag() -> Tag
        ensures { result ≡ 0x06 }
    {
        Self::TAG
    }
}

impl FixedTag for IdentifierRef<'_> {
    const TAG: Tag = Tag::OBJECT_IDENTIFIER;
}

impl ValueContent for IdentifierRef<'_> {
    ghost content = { identifier_content };

    ghost fault = { identifier_fault };
}

impl<'a> DecodeValue<'a> for IdentifierRef<'a> {
    #[tactic(auto, using(crate::proofs::ContentFaultLemmas::identifier_faults))]
    fn decode_value(reader: &mut SliceReader<'a>) -> Result<Self> {
        match IdentifierRef::from_bytes(reader.read_rest()?) {
            Ok(identifier) => Ok(identifier),
            Err(e) => Err(reader.fail(e.kind)),
        }
    }
}

impl EncodeValue for IdentifierRef<'_> {
    #[tactic(auto, using(crate::proofs::IdentifierLemmas::identifier_fits))]
    fn value_len(&self) -> Result<Length> {
        Length::new(self.bytes.len())
    }

    #[tactic(auto, using(crate::proofs::IdentifierLemmas::identifier_fits))]
    fn encode_back(&self, writer: &mut BackWriter) -> Result<()> {
        writer.write(self.bytes)
    }

    #[tactic(auto, using(crate::proofs::IdentifierLemmas::identifier_fits))]
    fn prepend_value(&self, writer: &mut BackWriter) {
        writer.prepend(self.bytes);
    }
}

impl UniqueContent for IdentifierRef<'_> {
    #[tactic(auto, using(crate::proofs::UniqueLemmas::unique_identifier))]
    fn content_injective()
        ensures { (a b bytes : List ℕ) → identifier_content a ≡ Some bytes
            → identifier_content b ≡ Some bytes → a ≡ b }
    {}
}

ghost use Rattle.std.specs.Prelude.{◌≡◌, ℕ, ◌<◌, ◌≤◌, ◌↔◌, List, length, IsTrue, MatchResult, Some};
ghost use Rattle.std.specs.Prelude.{None, ◌∷◌, ◌++◌, bytes_eq, true, codes, take, ◌-◌, replicate};
ghost use Rattle.std.specs.Cmp.{partial_equiv_from_equiv};
ghost use Rattle.std.specs.Fmt.{debug_variant};
ghost use Rattle.std.specs.Cmp.Lexicographic.{nat_list_eq_equiv};
ghost use Rattle.sec1_der.specs.Identifiers.{arcs_of};
ghost use Rattle.sec1_der.specs.Contents.{identifier_fault};
ghost use Rattle.sec1_der.specs.Identifiers.{IsIdentifier, are_arcs};
ghost use Rattle.sec1_der.specs.Identifiers.{content_of, max_identifier_length};
ghost use Rattle.sec1_der.specs.Identifiers.{dotted, identifier_content};
ghost use Rattle.sec1_der.specs.Stored.{IsStored, stored_again};

mod arcs;
mod builder;
mod text;

use crate::{
    BackWriter, DecodeValue, EncodeValue, ErrorKind, FixedTag, Length, Result, SliceReader, Tag,
    Tagged, UniqueContent, ValueContent,
};
pub use arcs::Arcs;
use builder::{Builder, arc};
use std::fmt;
use std::marker::Model;
use std::simd::prelude::*;
pub use text::{IdentifierText, MAX_IDENTIFIER_TEXT};

/// The greatest length of the content of an identifier in bytes.
pub const MAX_IDENTIFIER: usize = 39;

/// An OBJECT IDENTIFIER (X.690 section 8.19): two or more arcs, whose content has 1 to 39 bytes. A
/// contract sees the arcs.
///
/// The first arc is 0, 1 or 2; the second is below 40 under 0 and 1, and at most 4,294,967,215
/// under 2; each further arc is at most 4,294,967,295.
#[derive(Clone, Copy)]
pub struct ObjectIdentifier {
    bytes: [u8; MAX_IDENTIFIER],
    len: usize,
}

/// id-ecPublicKey, 1.2.840.10045.2.1 (RFC 5480 section 2.1.1).
pub const ID_EC_PUBLIC_KEY: ObjectIdentifier = ObjectIdentifier {
    bytes: [
        0x2A, 0x86, 0x48, 0xCE, 0x3D, 0x02, 0x01, 0, 0, 0, 0, 0, 0, 0, 0, 0, 0, 0, 0, 0, 0, 0, 0,
        0, 0, 0, 0, 0, 0, 0, 0, 0, 0, 0, 0, 0, 0, 0, 0,
    ],
    len: 7,
};

/// secp256r1, the curve P-256, 1.2.840.10045.3.1.7 (RFC 5480 section 2.1.1.1).
pub const SECP256R1: ObjectIdentifier = ObjectIdentifier {
    bytes: [
        0x2A, 0x86, 0x48, 0xCE, 0x3D, 0x03, 0x01, 0x07, 0, 0, 0, 0, 0, 0, 0, 0, 0, 0, 0, 0, 0, 0,
        0, 0, 0, 0, 0, 0, 0, 0, 0, 0, 0, 0, 0, 0, 0, 0, 0,
    ],
    len: 8,
};

impl Model for ObjectIdentifier {
    ghost Value = { List ℕ };

    ghost view = { λ o. arcs_of (take o.len o.bytes) };

    ghost invariant = { IsStored };

    ghost inverse = { λ arcs. record {
      bytes = content_of arcs ++ replicate (max_identifier_length - length (content_of arcs)) 0;
      len = length (content_of arcs);
    } };

    ghost inverse_ok = { stored_again };
}

impl ObjectIdentifier {
    /// Parses an identifier: its arcs in decimal digits without leading zeros, joined by full
    /// stops.
    ///
    /// # Errors
    ///
    /// Value for any other text, and if the content would have more than 39 bytes.
    ///
    /// # Examples
    ///
    /// ```
    /// let identifier = der::ObjectIdentifier::new("1.2.840.10045.3.1.7")?;
    /// ```
    pub fn new(text: &str) -> Result<ObjectIdentifier>
        ensures exact { MatchResult result
            (λ arcs. IsIdentifier arcs (content_of arcs) × (text.now ≡ dotted arcs))
            (λ e. e.kind ≡ ErrorKind.Value) }
        ensures only { (arcs : List ℕ) → IsIdentifier arcs (content_of arcs)
            → text.now ≡ dotted arcs
            → result ≡ Ok arcs }
    {
        let mut builder = Builder::new();
        for substring in text.split('.') {
            let Some(n) = arc(substring) else {
                return Err(ErrorKind::Value.into());
            };
            builder = builder.add(n)?;
        }
        match builder.content() {
            Some(content) => Ok(ObjectIdentifier::of_content(content)),
            None => Err(ErrorKind::Value.into()),
        }
    }

    /// Returns the identifier with this content (X.690 section 8.19).
    ///
    /// # Errors
    ///
    /// Value if no identifier has this content, or if it has more than 39 bytes.
    pub fn from_bytes(content: &[u8]) -> Result<ObjectIdentifier>
        ensures exact { MatchResult result (λ arcs. IsIdentifier arcs content.now)
            (λ e. e.kind ≡ ErrorKind.Value) }
        ensures only { (arcs : List ℕ) → IsIdentifier arcs content.now → result ≡ Ok arcs }
    {
        if !is_identifier(content) {
            return Err(ErrorKind::Value.into());
        }
        Ok(ObjectIdentifier::of_content(content))
    }

    /// Returns the identifier with this content.
    pub(crate) fn of_content(content: &[u8]) -> ObjectIdentifier
        requires { (arcs : List ℕ) × IsIdentifier arcs content.now }
        ensures { (arcs : List ℕ) → IsIdentifier arcs content.now → result ≡ arcs }
    {
        let mut bytes = [0; MAX_IDENTIFIER];
        bytes[..content.len()].copy_from_slice(content);
        ObjectIdentifier {
            bytes,
            len: content.len(),
        }
    }

    /// Borrows the content, 1 to 39 bytes.
    #[tactic(auto, using(crate::proofs::ContentFaultLemmas::identifier_taken))]
    pub fn as_bytes(&self) -> &[u8]
        ensures { IsIdentifier self.now result.now × (identifier_fault result.now ≡ None) }
    {
        &self.bytes[..self.len]
    }

    /// Returns the arcs as numbers, of which there are 2 to 40.
    #[tactic(auto, using(crate::proofs::IdentifierLemmas::arcs_of_content))]
    pub fn arcs(&self) -> Arcs<'_>
        ensures arcs { result ≡ self.now }
        ensures count { (2 ≤ length result) × (length result ≤ 40) }
    {
        Arcs::of_content(self.as_bytes())
    }
}

/// Returns `true` if the bytes are the content of an identifier, at most 39 of them.
pub(crate) fn is_identifier(content: &[u8]) -> bool
    ensures { IsTrue result ↔ ((arcs : List ℕ) × IsIdentifier arcs content.now) }
{
    if are_pairs(content) {
        return true;
    }
    content.len() <= MAX_IDENTIFIER && is_content(content)
}

/// Returns `true` if there are eight bytes, as the identifier of P-256 has, and each subidentifier
/// has one or two (X.690 section 8.19.2). They are tested all at once.
fn are_pairs(content: &[u8]) -> bool
    ensures { IsTrue result → (arcs : List ℕ) × IsIdentifier arcs content.now }
{
    let Some(bytes) = content.as_array::<8>() else {
        return false;
    };
    let bytes = u8x8::from_array(*bytes);
    // A bit for each byte, which is set where a subidentifier ends; and where one begins by zero.
    let ends = bytes.simd_lt(u8x8::splat(0x80)).to_bitmask();
    let zeros = bytes.simd_eq(u8x8::splat(0x80)).to_bitmask();
    ends | ends >> 1 == 0xFF && zeros == 0
}

/// Returns `true` if the bytes are one or more subidentifiers, each below 2^32 (X.690 section
/// 8.19.2).
#[tactic(auto, using(std::proofs::lemmas::Bool::Decides::nat_tests))]
fn is_content(content: &[u8]) -> bool
    ensures { IsTrue result
        ↔ ((arcs : List ℕ) × IsTrue (are_arcs arcs) × (content.now ≡ content_of arcs)) }
{
    if content.is_empty() {
        return false;
    }
    // The width of an unfinished subidentifier: how many of its digits were read, where a first
    // digit of 16 or more counts as two; 0 where one begins. A number is below 2^32 exactly when
    // the width of its digits without the last is at most four.
    let mut width: u8 = 0;
    let mut rest = content;
    while let Some((byte, after)) = rest.split_first() {
        if *byte < 0x80 {
            width = 0;
        } else if width == 0 {
            if *byte == 0x80 {
                return false;
            }
            width = if *byte < 0x90 { 1 } else { 2 };
        } else if width < 4 {
            width += 1;
        } else {
            return false;
        }
        rest = after;
    }
    width == 0
}

/// Identifiers are equal exactly when their arcs are.
impl PartialEq for ObjectIdentifier {
    ghost eq = { bytes_eq };

    ghost laws = { partial_equiv_from_equiv nat_list_eq_equiv };

    fn eq(&self, other: &Self) -> bool
        ensures value { result ≡ bytes_eq self.now other.now }
        ensures same { IsTrue result ↔ (self.now ≡ other.now) }
    {
        self.bytes == other.bytes && self.len == other.len
    }
}

impl Eq for ObjectIdentifier {
    ghost laws = { nat_list_eq_equiv };
}

/// Prints the arcs in decimal digits, joined by full stops, whatever options are set.
impl fmt::Display for ObjectIdentifier {
    ghost output = { λ arcs. Some (dotted arcs) };

    ghost styled_output = { λ arcs _. Some (dotted arcs) };

    #[tactic(auto, using(crate::proofs::TextLaws::shown_whole))]
    fn fmt<W: fmt::Write>(&self, f: &mut fmt::Formatter<W>) -> fmt::Result {
        f.write_str(self.to_text().as_str())
    }
}

impl fmt::Debug for ObjectIdentifier {
    ghost debug_output = { λ arcs. debug_variant (codes "ObjectIdentifier")
        (Some (dotted arcs)) };

    fn fmt<W: fmt::Write>(&self, f: &mut fmt::Formatter<W>) -> fmt::Result {
        write!(f, "ObjectIdentifier({self})")
    }
}

impl Tagged for ObjectIdentifier {
    ghost tag_byte = { 0x06 };

    fn fixed_tag() -> Tag {
        Self::TAG
    }
}

impl FixedTag for ObjectIdentifier {
    const TAG: Tag = Tag::OBJECT_IDENTIFIER;
}

impl ValueContent for ObjectIdentifier {
    ghost content = { identifier_content };

    ghost fault = { identifier_fault };
}

impl<'a> DecodeValue<'a> for ObjectIdentifier {
    #[tactic(auto, using(crate::proofs::ContentFaultLemmas::identifier_faults))]
    fn decode_value(reader: &mut SliceReader<'a>) -> Result<Self> {
        match ObjectIdentifier::from_bytes(reader.read_rest()?) {
            Ok(identifier) => Ok(identifier),
            Err(e) => Err(reader.fail(e.kind)),
        }
    }
}

impl EncodeValue for ObjectIdentifier {
    #[tactic(auto, using(crate::proofs::IdentifierLemmas::identifier_fits))]
    fn value_len(&self) -> Result<Length> {
        Length::new(self.as_bytes().len())
    }

    #[tactic(auto, using(crate::proofs::IdentifierLemmas::identifier_fits))]
    fn encode_back(&self, writer: &mut BackWriter) -> Result<()> {
        writer.write(self.as_bytes())
    }
}

impl UniqueContent for ObjectIdentifier {
    #[tactic(auto, using(crate::proofs::UniqueLemmas::unique_identifier))]
    fn content_injective() {}
}

ghost use Rattle.std.specs.Prelude.{◌≡◌, ◌<◌, ◌≤◌, ◌++◌, ℕ, List, length, Ok, drop};
ghost use Rattle.std.specs.Prelude.{MatchResult};
ghost use Rattle.std.specs.Prelude.{Some, None, ⊤, refl, codes};
ghost use Rattle.std.specs.Fmt.{◌++?◌, debug_list, debug_option, decimal};
ghost use Rattle.std.specs.Option.{option_map};
ghost use Rattle.sec1.specs.Keys.{Key, IsKeyOf, Exists};
ghost use Rattle.sec1.specs.Parameters.{curve_of};
ghost use Rattle.sec1.specs.declared.parameters.EcParameters.TheVariants.{NamedCurve};
ghost use Rattle.sec1.specs.ReadsKey.{ReadsKey};
ghost use Rattle.sec1.specs.Errors.{IsAsn1, HasNoEncodingOr};

use crate::borrowed_key::BorrowedKey;
use crate::in_place::{ReadInPlace, read_in_place};
use crate::{EcParameters, Error, Result};
use sec1_der as der;
use sec1_der::{
    BackWriter, DecodeValue, EncodeValue, ErrorKind, FixedTag, IdentifierRef, Length,
    SecretDocument, Sequence, SliceReader, Tag, Tagged, UniqueContent, ValueContent,
};
use std::alloc::Global;
use std::fmt;
use std::marker::Model;

/// An EC private key (SEC1 v2.0 Appendix C.4, RFC 5915 section 3), which borrows its bytes. A
/// contract sees its three parts.
///
/// ```text
/// ECPrivateKey ::= SEQUENCE {
///   version        INTEGER { ecPrivkeyVer1(1) } (ecPrivkeyVer1),
///   privateKey     OCTET STRING,
///   parameters [0] ECParameters {{ NamedCurve }} OPTIONAL,
///   publicKey  [1] BIT STRING OPTIONAL
/// }
/// ```
///
/// The length of the private key isn't compared with the curve's, and the public key need not be a
/// point.
#[derive(Clone, Drop)]
pub struct EcPrivateKey<'a> {
    /// The bytes of the private key.
    pub private_key: &'a [u8],

    /// The curve, if present.
    pub parameters: Option<EcParameters>,

    /// The bytes of the public key, if present.
    pub public_key: Option<&'a [u8]>,
}

impl<'a> Model for EcPrivateKey<'a> {
    ghost Value = { Key };

    ghost view = { λ key. record {
      private_key = key.private_key.now;
      parameters = option_map curve_of key.parameters;
      public_key = option_map (λ bytes. bytes.now) key.public_key;
    } };
}

impl Tagged for EcPrivateKey<'_> {
    ghost tag_byte = { 0x30 };

    fn fixed_tag() -> Tag
        ensures { result ≡ 0x30 }
    {
        Self::TAG
    }
}

impl FixedTag for EcPrivateKey<'_> {
    const TAG: Tag = Tag::SEQUENCE;
}

impl ValueContent for EcPrivateKey<'_> {
    ghost content = { ⟦<BorrowedKey<'static> as ValueContent>⟧.content };

    ghost fault = { ⟦<BorrowedKey<'static> as ValueContent>⟧.fault };
}

impl<'a> DecodeValue<'a> for EcPrivateKey<'a> {
    fn decode_value(reader: &mut SliceReader<'a>) -> der::Result<Self> {
        let content = reader.read_rest()?;
        let mut key = EcPrivateKey::empty();
        match key.read_content(content) {
            Ok(()) => Ok(key),
            Err(e) => Err(reader.fail(e.kind)),
        }
    }
}

impl EncodeValue for EcPrivateKey<'_> {
    fn value_len(&self) -> der::Result<Length> {
        self.borrow().value_len()
    }

    fn encode_back(&self, writer: &mut BackWriter) -> der::Result<()> {
        self.borrow().encode_back(writer)
    }

    fn prepend_value(&self, writer: &mut BackWriter) {
        self.borrow().prepend_value(writer);
    }
}

impl<'a> Sequence<'a> for EcPrivateKey<'a> {
    ghost is_sequence = { refl };
}

impl UniqueContent for EcPrivateKey<'_> {
    fn content_injective()
        ensures { (a b : Key) (bytes : List ℕ)
            → ⟦<BorrowedKey<'static> as ValueContent>⟧.content a ≡ Some bytes
            → ⟦<BorrowedKey<'static> as ValueContent>⟧.content b ≡ Some bytes → a ≡ b }
    {
        BorrowedKey::content_injective();
    }
}

/// Reads a key from its whole DER encoding, without an allocation. The private key and the public
/// key are borrowed from the input.
///
/// # Errors
///
/// [`Error::Asn1`] with the kind of the first fault from left to right: Truncated if the input, or
/// the element around a part, ends too early; Tag if a tag isn't the expected one; Length if a
/// length isn't in the form of DER; Value if the version isn't 1, the curve's identifier isn't
/// valid, or the public key isn't whole bytes; TrailingData if bytes follow the last part of an
/// element or of the input.
///
/// # Examples
///
/// ```
/// let key = EcPrivateKey::try_from(bytes)?;
/// Ok(key.public_key.is_some())
/// ```
impl<'a> TryFrom<&'a [u8]> for EcPrivateKey<'a> {
    type Error = Error;

    ghost try_from_gives = { λ bytes result. ReadsKey bytes.now result };

    // Inlined, so that a refusal doesn't pass a whole key's place through memory.
    #[inline(always)]
    fn try_from(bytes: &'a [u8]) -> Result<EcPrivateKey<'a>> {
        EcPrivateKey::content_injective();
        der::laws::trees_unique();
        der::laws::cut_elements();
        let mut key = EcPrivateKey::empty();
        read_in_place(&mut key, bytes)?;
        Ok(key)
    }
}

impl<'a> EcPrivateKey<'a> {
    /// Returns the length of the key's DER encoding in bytes.
    ///
    /// # Errors
    ///
    /// [`Error::Asn1`] of Overlength if the content of an element would be longer than 268,435,455
    /// bytes.
    pub fn encoded_len(&self) -> Result<usize>
        ensures exact { MatchResult result
            (λ n. Exists (IsKeyOf self.now) (λ bytes. n ≡ length bytes))
            (λ e. IsAsn1 ErrorKind.Overlength e
            × ((bytes : List ℕ) → ¬ IsKeyOf self.now bytes)) }
    {
        self.borrow().encoded_len()
    }

    /// Writes the key's DER encoding at the beginning of the slice, and returns the number of bytes
    /// written. The rest of the slice is unchanged.
    ///
    /// # Errors
    ///
    /// [`Error::Asn1`] of Overlength if the content of an element would be longer than 268,435,455
    /// bytes, then of Buffer if the slice is too short. The whole slice is unchanged then.
    ///
    /// # Examples
    ///
    /// ```
    /// let key = EcPrivateKey {
    ///     private_key,
    ///     parameters: None,
    ///     public_key: None,
    /// };
    /// let n = key.encode_to_slice(buffer)?;
    /// Ok(&buffer[..n])
    /// ```
    // Inlined, so that the length isn't returned through memory.
    #[inline(always)]
    pub fn encode_to_slice(&self, buffer: &mut [u8]) -> Result<usize>
        ensures exact { MatchResult result
            (λ n. (n ≤ length buffer.new) × Exists (IsKeyOf self.now) (λ bytes.
            (n ≡ length bytes) × (buffer.new ≡ bytes ++ drop n buffer.old)))
            (λ e. (buffer.new ≡ buffer.old) × HasNoEncodingOr (IsAsn1 ErrorKind.Buffer) self.now
            (λ bytes. length buffer.old < length bytes) e) }
    {
        self.borrow().encode_to_slice(buffer)
    }

    /// Returns the key's DER encoding.
    ///
    /// # Errors
    ///
    /// [`Error::Asn1`] of Overlength if the content of an element would be longer than 268,435,455
    /// bytes, then [`Error::Memory`] if the allocation fails.
    ///
    /// # Examples
    ///
    /// ```
    /// let bytes = key.to_der(alloc)?;
    /// ```
    pub fn to_der(&self, alloc: Global) -> Result<Vec<u8>>
        ensures exact { MatchResult result (λ der. IsKeyOf self.now der.items)
            (HasNoEncodingOr (λ e. e ≡ Error.Memory) self.now (λ _. ⊤)) }
    {
        Ok(der::to_der(alloc, &self.borrow())?)
    }

    /// Returns a document of the key's DER encoding. Consumes the key, even on error.
    ///
    /// # Errors
    ///
    /// [`Error::Asn1`] of Overlength if the content of an element would be longer than 268,435,455
    /// bytes, then [`Error::Memory`] if the allocation fails.
    pub fn document(self, alloc: Global) -> Result<SecretDocument>
        ensures exact { MatchResult result (IsKeyOf self.entry)
            (HasNoEncodingOr (λ e. e ≡ Error.Memory) self.entry (λ _. ⊤)) }
    {
        self.document_ref(alloc)
    }

    /// Returns a document of the key's DER encoding.
    ///
    /// # Errors
    ///
    /// [`Error::Asn1`] of Overlength if the content of an element would be longer than 268,435,455
    /// bytes, then [`Error::Memory`] if the allocation fails.
    pub fn document_ref(&self, alloc: Global) -> Result<SecretDocument>
        ensures exact { MatchResult result (IsKeyOf self.now)
            (HasNoEncodingOr (λ e. e ≡ Error.Memory) self.now (λ _. ⊤)) }
    {
        Ok(SecretDocument::encode_msg(alloc, &self.borrow())?)
    }
}

/// Prints the key without the bytes of the private key.
impl fmt::Debug for EcPrivateKey<'_> {
    ghost debug_output = { λ key. Some (codes "EcPrivateKey { parameters: ")
        ++? debug_option (λ arcs. ⟦<EcParameters as fmt::Debug>⟧.debug_output (NamedCurve arcs))
        key.parameters ++? Some (codes ", public_key: ")
        ++? debug_option (debug_list (λ byte. Some (decimal byte))) key.public_key
        ++? Some (codes ", .. }") };

    fn fmt<W: fmt::Write>(&self, f: &mut fmt::Formatter<W>) -> fmt::Result {
        let parameters = &self.parameters;
        let public_key = &self.public_key;
        if f.alternate() {
            return f
                .debug_struct("EcPrivateKey")
                .field("parameters", parameters)
                .field("public_key", public_key)
                .finish_non_exhaustive();
        }
        write!(
            f,
            "EcPrivateKey {{ parameters: {parameters:?}, public_key: {public_key:?}, .. }}"
        )
    }
}

impl<'a> EcPrivateKey<'a> {
    /// Returns the key with its identifier borrowed from this one.
    fn borrow(&self) -> BorrowedKey<'_>
        ensures { result ≡ self.now }
    {
        BorrowedKey {
            private_key: self.private_key,
            curve: match &self.parameters {
                Some(EcParameters::NamedCurve(curve)) => Some(IdentifierRef::of(curve)),
                None => None,
            },
            public_key: self.public_key,
        }
    }

    /// Returns a key without bytes and optional fields: a place to read a key into.
    fn empty() -> EcPrivateKey<'a>
        ensures { (result.parameters ≡ None) × (result.public_key ≡ None) }
    {
        EcPrivateKey {
            private_key: &[],
            parameters: None,
            public_key: None,
        }
    }
}

impl<'a> ReadInPlace<'a> for EcPrivateKey<'a> {
    ghost is_empty = { λ key. (key.parameters ≡ None) × (key.public_key ≡ None) };

    #[inline(never)]
    fn read_content(&mut self, content: &'a [u8]) -> der::Result<()> {
        let BorrowedKey {
            private_key,
            curve,
            public_key,
        } = BorrowedKey::decode_value(&mut SliceReader::new(content))?;
        self.private_key = private_key;
        // What is absent isn't stored.
        if let Some(curve) = curve {
            self.parameters = Some(EcParameters::NamedCurve(curve.to_identifier()));
        }
        if let Some(bytes) = public_key {
            self.public_key = Some(bytes);
        }
        Ok(())
    }
}

//! EC private keys that borrow all of their parts.
ghost use Rattle.std.specs.Prelude.{◌≡◌, ◌<◌, ◌≤◌, ◌++◌, ℕ, List, length, drop};
ghost use Rattle.std.specs.Prelude.{MatchResult, None, refl};
ghost use Rattle.std.specs.Option.{option_map};
ghost use Rattle.sec1.specs.Errors.{IsAsn1, HasNoEncodingOr};
ghost use Rattle.sec1.specs.Keys.{Key, IsKeyOf, Exists};
ghost use Rattle.sec1.specs.ReadsKey.{ReadsKey};

use crate::in_place::{ReadInPlace, read_in_place};
use crate::{Error, Result};
use sec1_der as der;
use sec1_der::{
    Context0, DecodeValue, Distinct, ErrorKind, Explicit, ExplicitBits, IdentifierRef, Octets,
    Optional, Record, Required, SliceReader, UniqueContent, VersionOne,
};
use std::marker::Model;

/// An EC private key that borrows the curve's identifier too (SEC1 v2.0 Appendix C.4, RFC 5915
/// section 3). A contract sees its three parts.
///
/// An [`EcPrivateKey`](crate::EcPrivateKey) holds a copy of the identifier, and is written by this
/// type. A program that looks at a key, or writes it again, needs no copy.
#[derive(Drop)]
pub struct BorrowedKey<'a> {
    /// The bytes of the private key.
    pub private_key: &'a [u8],

    /// The identifier of the curve, if present.
    pub curve: Option<IdentifierRef<'a>>,

    /// The bytes of the public key, if present.
    pub public_key: Option<&'a [u8]>,
}

impl<'a> Model for BorrowedKey<'a> {
    ghost Value = { Key };

    ghost view = { λ key. record {
      private_key = key.private_key.now;
      parameters = key.curve;
      public_key = option_map (λ bytes. bytes.now) key.public_key;
    } };
}

impl<'a> Record for BorrowedKey<'a> {
    type Parts = (
        Required<VersionOne>,
        (
            Required<Octets<'a>>,
            (
                Optional<Explicit<Context0, IdentifierRef<'a>>>,
                Optional<ExplicitBits<'a>>,
            ),
        ),
    );

    ghost parts = { λ key. (record {}, (key.private_key, (key.parameters, key.public_key))) };

    ghost of_parts = { λ pairs. record {
      private_key = pairs.1.0;
      parameters = pairs.1.1.0;
      public_key = pairs.1.1.1;
    } };

    fn from_parts(pairs: Self::Parts) -> Self {
        let (_, (private_key, (curve, public_key))) = pairs;
        BorrowedKey {
            private_key: private_key.0.bytes,
            curve: match curve.0 {
                Some(curve) => Some(curve.value),
                None => None,
            },
            public_key: match public_key.0 {
                Some(bits) => Some(bits.bytes),
                None => None,
            },
        }
    }

    fn to_parts(&self) -> Self::Parts {
        let bytes = self.private_key;
        let curve = match &self.curve {
            Some(curve) => Some(Explicit::new(curve.reborrow())),
            None => None,
        };
        let public_key = match self.public_key {
            Some(bytes) => Some(ExplicitBits { bytes }),
            None => None,
        };
        (
            Required(VersionOne),
            (
                Required(Octets { bytes }),
                (Optional(curve), Optional(public_key)),
            ),
        )
    }

    ghost same = { λ _. refl };
}

impl Distinct for BorrowedKey<'_> {
    ghost distinct = { refl };
}

/// Reads a key from its whole DER encoding, without an allocation. All parts are borrowed from the
/// input.
///
/// # Errors
///
/// [`Error::Asn1`] with the kind of the first fault from left to right: Truncated if the input, or
/// the element around a part, ends too early; Tag if a tag isn't the expected one; Length if a
/// length isn't in the form of DER; Value if the version isn't 1, the curve's identifier isn't
/// valid, or the public key isn't whole bytes; TrailingData if bytes follow the last part of an
/// element or of the input.
impl<'a> TryFrom<&'a [u8]> for BorrowedKey<'a> {
    type Error = Error;

    ghost try_from_gives = { λ bytes result. ReadsKey bytes.now result };

    // Inlined, so that a refusal doesn't pass a whole key's place through memory.
    #[inline(always)]
    fn try_from(bytes: &'a [u8]) -> Result<BorrowedKey<'a>> {
        BorrowedKey::content_injective();
        der::laws::trees_unique();
        der::laws::cut_elements();
        let mut key = BorrowedKey::empty();
        read_in_place(&mut key, bytes)?;
        Ok(key)
    }
}

impl<'a> BorrowedKey<'a> {
    /// Returns the length of the key's DER encoding in bytes.
    ///
    /// # Errors
    ///
    /// [`Error::Asn1`] of Overlength if the content of an element would be longer than 268,435,455
    /// bytes.
    #[tactic(auto, using(crate::proofs::KeyLemmas::key_none))]
    pub fn encoded_len(&self) -> Result<usize>
        ensures exact { MatchResult result
            (λ n. Exists (IsKeyOf self.now) (λ bytes. n ≡ length bytes))
            (λ e. IsAsn1 ErrorKind.Overlength e
            × ((bytes : List ℕ) → ¬ IsKeyOf self.now bytes)) }
    {
        Ok(der::encoded_len(self)?)
    }

    /// Writes the key's DER encoding at the beginning of the slice, and returns the number of bytes
    /// written. The rest of the slice is unchanged.
    ///
    /// # Errors
    ///
    /// [`Error::Asn1`] of Overlength if the content of an element would be longer than 268,435,455
    /// bytes, then of Buffer if the slice is too short. The whole slice is unchanged then.
    // Inlined, so that the length isn't returned through memory.
    #[inline(always)]
    pub fn encode_to_slice(&self, buffer: &mut [u8]) -> Result<usize>
        ensures exact { MatchResult result
            (λ n. (n ≤ length buffer.new) × Exists (IsKeyOf self.now) (λ bytes.
            (n ≡ length bytes) × (buffer.new ≡ bytes ++ drop n buffer.old)))
            (λ e. (buffer.new ≡ buffer.old) × HasNoEncodingOr (IsAsn1 ErrorKind.Buffer) self.now
            (λ bytes. length buffer.old < length bytes) e) }
    {
        Ok(der::encode_to_slice(self, buffer)?)
    }

    /// Returns a key without bytes and optional fields: a place to read a key into.
    fn empty() -> BorrowedKey<'a>
        ensures { (result.parameters ≡ None) × (result.public_key ≡ None) }
    {
        BorrowedKey {
            private_key: &[],
            curve: None,
            public_key: None,
        }
    }
}

impl<'a> ReadInPlace<'a> for BorrowedKey<'a> {
    ghost is_empty = { λ key. (key.parameters ≡ None) × (key.public_key ≡ None) };

    fn read_content(&mut self, content: &'a [u8]) -> der::Result<()> {
        let BorrowedKey {
            private_key,
            curve,
            public_key,
        } = BorrowedKey::decode_value(&mut SliceReader::new(content))?;
        self.private_key = private_key;
        // What is absent isn't stored.
        if let Some(curve) = curve {
            self.curve = Some(curve);
        }
        if let Some(bytes) = public_key {
            self.public_key = Some(bytes);
        }
        Ok(())
    }
}

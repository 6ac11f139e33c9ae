//! Key types that are read from, and written as, the DER of an EC private key. A key type says
//! which bytes are read as which key, which bytes a key is written as, and which errors there are.

ghost use Rattle.std.specs.Prelude.{ℕ, List, false, ◌≡◌, ◌⊎◌, ◌↔◌, IfSome, IsTrue, MatchBool};
ghost use Rattle.std.specs.Prelude.{MatchResult, IsErrAnd, Some, None};
ghost use Rattle.std.specs.Io.KnownBytes.{Appends};
ghost use Rattle.sec1.specs.Errors.{IsAsn1, IsAsn1Where, error_of};
ghost use Rattle.sec1.specs.Keys.{Exists};
ghost use Rattle.sec1.specs.declared.error.Error.{Error};
ghost use Rattle.sec1_der.specs.Elements.{IsElement};
ghost use Rattle.sec1_der.specs.Errors.{IsHeaderFault};
ghost use Rattle.sec1_der.specs.Faults.{document_fault};
ghost use Rattle.sec1_der.specs.Streams.{RefusesElement};
ghost use Rattle.sec1_der.specs.declared.error.Error.{Error as DerError};
ghost use Rattle.sec1_der.specs.Streams.{AppendsPrefix, Ends, Takes};

use crate::{Error, Result};
use sec1_der::{ErrorKind, Read, SecretDocument, Write};
use std::alloc::Global;
use std::rt::Files;

/// A key type that is read from the DER of an EC private key (RFC 5915 section 3).
pub trait DecodeEcPrivateKey: Sized {
    /// Which bytes are read as which key.
    ghost reads: { List ℕ → Self → Type 0 };

    /// Which bytes are refused, and with which error.
    ghost refuses: { List ℕ → Error → Type 0 };

    /// Reads a key from its DER encoding.
    ///
    /// # Errors
    ///
    /// Those of the key type, or [`Error::Memory`] if an allocation fails.
    fn from_sec1_der(alloc: Global, bytes: &[u8]) -> Result<Self>
        ensures { MatchResult result (reads bytes.now)
            (λ error. (error ≡ Error.Memory) ⊎ refuses bytes.now error) };

    /// Reads a key from the whole remaining input of a reader.
    ///
    /// # Errors
    ///
    /// Those of [`SecretDocument::read_der_from`], [`Error::Asn1`] of kind Io among them if a read
    /// failed; then those of [`from_sec1_der`](DecodeEcPrivateKey::from_sec1_der).
    fn read_sec1_der_from<R: Read>(alloc: Global, reader: &mut R) -> Result<Self>
        requires { R.failed reader.old ≡ false }
        ensures exact { let taken = Takes R.left R.taken reader.old reader.new in
            let ended = Ends R.left R.ended reader.new in
            let whole : List ℕ → Type 0 = λ bytes. IsElement bytes × taken bytes × ended in
            MatchResult result
            (λ key. (R.failed reader.new ≡ false) × Exists whole (λ bytes. reads bytes key))
            (λ error. ((cause : DerError) × (error ≡ error_of cause)
            × RefusesElement cause.kind taken ended
            × (((cause.kind ≡ ErrorKind.Io) ⊎ (cause.kind ≡ ErrorKind.Memory))
            ⊎ IfSome (R.left reader.old) (λ all. ¬ (IsElement all)))
            × (IsAsn1 ErrorKind.Io error ↔ IsTrue (R.failed reader.new)))
            ⊎ ((R.failed reader.new ≡ false) × Exists whole
            (λ bytes. (error ≡ Error.Memory) ⊎ refuses bytes error))) }
        // Where the bytes aren't one element, that they are refused, and by which kind, is a
        // function of those that the reader had left, and of those that were taken.
        ensures kind { let told : List ℕ → Type 0 = λ bytes. (document_fault bytes ≡ None)
            ⊎ IsErrAnd result (λ error. (error ≡ Error.Memory) ⊎ IsAsn1Where
            (λ kind. (kind ≡ ErrorKind.Io) ⊎ (document_fault bytes ≡ Some (Some kind))) error) in
            IfSome (R.left reader.old) told
            × Exists (Takes R.left R.taken reader.old reader.new) told }
    {
        let document = SecretDocument::read_der_from(alloc, reader)?;
        Self::from_sec1_der(alloc, document.as_bytes())
    }

    /// Reads a key from a file.
    ///
    /// # Errors
    ///
    /// Those of [`SecretDocument::read_der_file`], then those of
    /// [`from_sec1_der`](DecodeEcPrivateKey::from_sec1_der).
    fn read_sec1_der_file<F: Files>(rt: &F, alloc: Global, path: &str) -> Result<Self>
        ensures { MatchResult result (λ key. Exists IsElement (λ bytes. reads bytes key))
            (λ error. ((cause : DerError) × (error ≡ error_of cause)
            × (IsHeaderFault cause.kind ⊎ (cause.kind ≡ ErrorKind.TrailingData)
            ⊎ (cause.kind ≡ ErrorKind.Io)
            ⊎ (cause.kind ≡ ErrorKind.Memory)))
            ⊎ Exists IsElement (λ bytes. (error ≡ Error.Memory) ⊎ refuses bytes error)) }
    {
        let document = SecretDocument::read_der_file(rt, alloc, path)?;
        Self::from_sec1_der(alloc, document.as_bytes())
    }
}

/// A key type that is written as the DER of an EC private key (RFC 5915 section 3).
pub trait EncodeEcPrivateKey {
    /// The encoding of a key.
    ghost writes: { Self → List ℕ → Type 0 };

    /// Which keys are refused, and with which error.
    ghost refuses: { Self → Error → Type 0 };

    /// Returns the key's DER encoding.
    ///
    /// # Errors
    ///
    /// Those of the key type, or [`Error::Memory`] if an allocation fails.
    fn to_sec1_der(&self, alloc: Global) -> Result<SecretDocument>
        ensures { MatchResult result (writes self.now)
            (λ error. (error ≡ Error.Memory) ⊎ refuses self.now error) };

    /// Writes the key's DER encoding.
    ///
    /// # Errors
    ///
    /// Those of [`to_sec1_der`](EncodeEcPrivateKey::to_sec1_der), before anything is written; then
    /// [`Error::Asn1`] of kind Io if a write failed, after a prefix of the bytes was written.
    fn write_sec1_der_to<W: Write>(&self, alloc: Global, writer: &mut W) -> Result<()>
        requires { W.failed writer.old ≡ false }
        ensures { let old = W.written writer.old in
            let new = W.written writer.new in
            MatchResult result
            (λ _. (W.failed writer.new ≡ false) × Exists (writes self.now) (Appends old new))
            (λ error. MatchBool (W.failed writer.new)
            (IsAsn1 ErrorKind.Io error × Exists (writes self.now) (AppendsPrefix old new))
            (((error ≡ Error.Memory) ⊎ refuses self.now error) × (new ≡ old))) }
    {
        let document = self.to_sec1_der(alloc)?;
        document.write_der_to(writer)?;
        Ok(())
    }

    /// Writes the key's DER encoding to a file, which is created or truncated.
    ///
    /// # Errors
    ///
    /// Those of [`to_sec1_der`](EncodeEcPrivateKey::to_sec1_der), before the file is opened, then
    /// those of [`SecretDocument::write_der_file`].
    fn write_sec1_der_file<F: Files>(&self, rt: &F, alloc: Global, path: &str) -> Result<()>
        ensures { MatchResult result (λ _. Exists IsElement (writes self.now))
            (λ error. IsAsn1 ErrorKind.Io error ⊎ (error ≡ Error.Memory) ⊎ refuses self.now error) }
    {
        let document = self.to_sec1_der(alloc)?;
        document.write_der_file(rt, path)?;
        Ok(())
    }
}

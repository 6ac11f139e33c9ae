ghost use Rattle.std.specs.Prelude.{◌≡◌, ◌⊎◌, ℕ, List, length, Some, None, MatchResult, ⊤, codes};
ghost use Rattle.std.specs.Prelude.{IsSomeAnd};
ghost use Rattle.std.specs.Fmt.{WritesStyledOnOk};
ghost use Rattle.sec1_der.specs.Elements.{element_of, IsElement, IsProperPrefix};
ghost use Rattle.sec1_der.specs.Errors.{IsHeaderFault, Refuses};
ghost use Rattle.sec1_der.specs.Faults.{document_fault};

pub(crate) mod stream;

use crate::{AnyRef, EncodeValue, ErrorKind, Result, Tagged, to_der};
use std::alloc::Global;
use std::fmt;
use std::marker::Model;

/// The DER encoding of one element, in memory: a header, and as many bytes as it announces. A
/// contract sees the bytes.
///
/// The content isn't examined. A document is never empty, since it has a header. Its bytes aren't
/// wiped when it is dropped.
#[derive(Drop)]
pub struct SecretDocument {
    bytes: Vec<u8>,
}

impl Model for SecretDocument {
    ghost Value = { List ℕ };

    ghost view = { λ document. document.bytes.items };

    ghost invariant = { λ document. IsElement document.bytes.items };
}

impl SecretDocument {
    /// Creates a document from the encoding of one element, which is copied.
    ///
    /// # Errors
    ///
    /// Those of [`AnyRef::split`], then TrailingData if bytes follow the element, and Memory if the
    /// allocation fails.
    #[tactic(auto, using(crate::proofs::ElementFaultLemmas::document_faults))]
    pub fn from_der(alloc: Global, bytes: &[u8]) -> Result<SecretDocument>
        // Whether the input is refused, and by which kind, is a function of its bytes; otherwise
        // the allocation may fail.
        ensures exact { MatchResult result
            (λ document. (document ≡ bytes.now) × IsElement bytes.now
            × (document_fault bytes.now ≡ None))
            (λ e. (¬ (IsElement bytes.now) × (document_fault bytes.now ≡ Some (Some e.kind))
            × (IsHeaderFault e.kind ⊎ (e.kind ≡ ErrorKind.TrailingData)))
            ⊎ (IsElement bytes.now × (document_fault bytes.now ≡ None)
            × (e.kind ≡ ErrorKind.Memory))) }
        // Bytes after an element are refused as TrailingData.
        ensures long { (whole : List ℕ) → IsElement whole → IsProperPrefix whole bytes.now
            → Refuses result ErrorKind.TrailingData }
    {
        let (_, rest) = AnyRef::split(bytes)?;
        if !rest.is_empty() {
            return Err(ErrorKind::TrailingData.into());
        }
        let bytes = Vec::from_slice(alloc, bytes)?;
        Ok(SecretDocument { bytes })
    }

    /// Creates a document from the encoding of a value.
    ///
    /// # Errors
    ///
    /// Those of [`to_der`].
    pub fn encode_msg<T: EncodeValue + Tagged>(alloc: Global, value: &T) -> Result<SecretDocument>
        ensures { let encoded = element_of T.tag_byte (T.content value.now) in MatchResult result
            (λ document. encoded ≡ Some document)
            (λ e. ((e.kind ≡ ErrorKind.Overlength) × (encoded ≡ None))
            ⊎ ((e.kind ≡ ErrorKind.Memory) × IsSomeAnd encoded (λ _. ⊤))) }
    {
        let bytes = to_der(alloc, value)?;
        Ok(SecretDocument { bytes })
    }

    /// Borrows the bytes, header and content.
    pub fn as_bytes(&self) -> &[u8]
        ensures { (result.now ≡ self.now) × IsElement self.now }
    {
        &self.bytes
    }

    /// Returns the number of bytes, at least 2.
    pub fn len(&self) -> usize
        ensures { result ≡ length self.now }
    {
        self.bytes.len()
    }
}

/// Prints no bytes, whatever options are set.
impl fmt::Debug for SecretDocument {
    ghost debug_output = { λ _. Some (codes "SecretDocument { .. }") };

    fn fmt<W: fmt::Write>(&self, f: &mut fmt::Formatter<W>) -> fmt::Result
        ensures { WritesStyledOnOk W.write_str_gives f.old result (codes "SecretDocument { .. }")
            f.new }
    {
        f.write_str("SecretDocument { .. }")
    }
}

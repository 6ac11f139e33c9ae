//! Bytes that are one element, or one tree, and no more; and the contents of a type.
ghost use Rattle.std.specs.Prelude.{◌≡◌, ◌≤◌, ◌∷◌, [], ℕ, List, None, Some, length};
ghost use Rattle.std.specs.Prelude.{IfErr, IfOk, IsOk, IsOkAnd};
ghost use Rattle.sec1_der.specs.Elements.{IsHeader, element, max_length};
ghost use Rattle.sec1_der.specs.Trees.{IsTreeOf, Tree};

use sec1_der::{
    AnyRef, DecodeValue, ErrorKind, Result, SecretDocument, VersionOne, from_der, laws,
};
use std::alloc::Global;

/// Keeps a tree as a document, which fails only if memory is refused.
pub fn checked_document(alloc: Global, bytes: &[u8]) -> Result<SecretDocument>
    ensures { IfErr result (λ e. (t : Tree) → IsTreeOf t bytes.now → e.kind ≡ ErrorKind.Memory) }
{
    laws::trees_are_elements();
    SecretDocument::from_der(alloc, bytes)
}

/// Returns the number of bytes after the element of a document: none.
pub fn document_is_split(document: &SecretDocument) -> Result<usize>
    ensures always { IsOk result }
    ensures rest { IfOk result (λ count. count ≡ 0) }
{
    let (_, rest) = AnyRef::split(document.as_bytes())?;
    Ok(rest.len())
}

/// Returns the bytes after a tree: none.
pub fn tree_is_split(bytes: &[u8]) -> Result<&[u8]>
    ensures { (t : Tree) → IsTreeOf t bytes.now → IsOkAnd result (λ rest. rest.now ≡ []) }
{
    laws::trees_are_elements();
    let (_, rest) = AnyRef::split(bytes)?;
    Ok(rest)
}

/// Returns the content of an element, and the bytes after it: none.
pub fn split_whole(bytes: &[u8]) -> Result<(&[u8], &[u8])>
    ensures { (tag : ℕ) (content : List ℕ) → IsHeader tag (length content)
        → bytes.now ≡ element tag content
        → IsOkAnd result (λ found. (found.0.now ≡ content) × (found.1.now ≡ [])) }
{
    let (any, rest) = AnyRef::split(bytes)?;
    Ok((any.value(), rest))
}

/// The content of a value meets the rule of its type.
pub fn content_meets_rule<'a, T: DecodeValue<'a> + Drop>(content: &'a [u8])
    requires { length content.now ≤ max_length }
    ensures { (value : T) → T.content value ≡ Some content.now → T.fault content.now ≡ None }
{
    laws::contents_meet_rule::<T>(content);
}

/// Reads a version, and accepts that of version 1.
pub fn rule_of_version(bytes: &[u8]) -> Result<VersionOne>
    ensures { bytes.now ≡ 0x02 ∷ 0x01 ∷ 0x01 ∷ [] → IsOk result }
{
    laws::short_lengths();
    from_der(bytes)
}

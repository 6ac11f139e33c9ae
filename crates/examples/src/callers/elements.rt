//! Elements of DER read and written, by the contracts of `sec1` alone and the definitions that it
//! re-exports.
ghost use Rattle.std.specs.Prelude.{◌≡◌, ◌≢◌, ◌↔◌, ◌≤◌, ◌++◌, ℕ, List, length, Some, IsOk};
ghost use Rattle.std.specs.Prelude.{IfOk, IfErr, IsOkAnd, IsTrue, slice_get};
ghost use Rattle.sec1.specs.Der.{max_length, element, octets_of, tag_of, value_of};
ghost use Rattle.sec1.specs.Der.{element_of, header_fault, IsHeader, IsHeaderFault, header};
ghost use Rattle.sec1.specs.Der.{IsProperPrefix, Refuses};
ghost use Rattle.sec1_der.specs.Identifiers.{identifier_content};

use sec1::der::{
    self, AnyRef, ErrorKind, IdentifierRef, ObjectIdentifier, OctetStringRef, SliceReader, Tag,
};
use std::alloc::{AllocError, Global};

/// Writes an octet string at the beginning of a buffer and returns its bytes.
pub fn octet_string_in<'b>(octets: &OctetStringRef, buffer: &'b mut [u8]) -> der::Result<&'b [u8]>
    ensures found { IfOk result (λ bytes.
        element_of 0x04 (Some (octets_of octets.now)) ≡ Some bytes.now) }
    ensures only { (bytes : List ℕ) → element_of 0x04 (Some (octets_of octets.now)) ≡ Some bytes
        → length bytes ≤ length buffer.old → IsOkAnd result (λ written. written.now ≡ bytes) }
{
    let n = der::encode_to_slice(octets, buffer)?;
    Ok(&buffer[..n])
}

/// Returns the content of the element that the bytes begin with.
pub fn first_content(bytes: &[u8]) -> der::Result<&[u8]>
    ensures found { IfOk result (λ content. (tag : ℕ) × (rest : List ℕ)
        × IsHeader tag (length content.now) × (bytes.now ≡ element tag content.now ++ rest)) }
    ensures only { (tag : ℕ) (content rest : List ℕ) → IsHeader tag (length content)
        → bytes.now ≡ element tag content ++ rest → IsOkAnd result (λ found. found.now ≡ content) }
    ensures kinds { IfErr result (λ e. IsHeaderFault e.kind) }
    ensures fault { ((tag n : ℕ) (rest : List ℕ) → IsHeader tag n
        → bytes.now ≢ header tag n ++ rest) → Refuses result (header_fault bytes.now) }
{
    der::laws::bytes_without_header();
    let any = AnyRef::decode(&mut SliceReader::new(bytes))?;
    Ok(any.value())
}

/// Returns the bytes after the element that the bytes begin with.
pub fn after_element(bytes: &[u8]) -> der::Result<&[u8]>
    ensures found { IfOk result (λ rest. (tag : ℕ) × (content : List ℕ)
        × IsHeader tag (length content) × (bytes.now ≡ element tag content ++ rest.now)) }
    ensures only { (tag : ℕ) (content rest : List ℕ) → IsHeader tag (length content)
        → bytes.now ≡ element tag content ++ rest → IsOkAnd result (λ left. left.now ≡ rest) }
    ensures kinds { IfErr result (λ e. IsHeaderFault e.kind) }
    ensures fault { ((tag n : ℕ) (rest : List ℕ) → IsHeader tag n
        → bytes.now ≢ header tag n ++ rest) → Refuses result (header_fault bytes.now) }
{
    der::laws::bytes_without_header();
    let (_, rest) = AnyRef::split(bytes)?;
    Ok(rest)
}

/// Returns the second arc of an identifier.
pub fn second_arc(identifier: &ObjectIdentifier) -> Option<u32>
    ensures { result ≡ slice_get identifier.now 1 }
{
    let mut arcs = identifier.arcs();
    let _first = arcs.next();
    arcs.next()
}

/// Returns the number of arcs of an identifier, which is at least 2.
pub fn count_arcs(identifier: &IdentifierRef) -> usize
    ensures number { result ≡ length identifier.now }
    ensures some { 2 ≤ result }
{
    identifier.arcs().count()
}

/// Returns `true` if the arcs of two identifiers are the same, one by one.
pub fn same_arcs(a: &ObjectIdentifier, b: &ObjectIdentifier) -> bool
    ensures { IsTrue result ↔ (a.now ≡ b.now) }
{
    der::laws::arcs_in_order();
    a.arcs().eq(b.arcs())
}

/// Returns `true`: two identifiers are equal if and only if their arcs are.
pub fn equal_by_arcs(a: &ObjectIdentifier, b: &ObjectIdentifier) -> bool
    ensures { IsTrue result }
{
    (a == b) == same_arcs(a, b)
}

/// Returns the arcs of an identifier.
///
/// # Errors
///
/// Out of memory.
pub fn all_arcs(alloc: Global, identifier: &ObjectIdentifier) -> Result<Vec<u32>, AllocError>
    ensures { IfOk result (λ arcs. arcs.items ≡ identifier.now) }
{
    der::laws::arcs_in_order();
    identifier.arcs().collect(alloc)
}

/// Reads an identifier, and returns the number of its arcs.
pub fn count_of_element(bytes: &[u8]) -> der::Result<usize>
    ensures found { IfOk result (λ count. (arcs : List ℕ)
        × (element_of 0x06 (identifier_content arcs) ≡ Some bytes.now)
        × (count ≡ length arcs)) }
    ensures only { (arcs : List ℕ) → element_of 0x06 (identifier_content arcs) ≡ Some bytes.now
        → IsOkAnd result (λ count. count ≡ length arcs) }
{
    let identifier: IdentifierRef = der::read_der(bytes)?;
    Ok(identifier.arcs().count())
}

/// Reads an octet string. One that ends too early is refused as Truncated.
pub fn octets_at(bytes: &[u8]) -> der::Result<OctetStringRef<'_>>
    ensures short { (content : List ℕ) → length content ≤ max_length
        → IsProperPrefix bytes.now (element 0x04 content)
        → Refuses result ErrorKind.Truncated }
{
    der::laws::cut_elements();
    SliceReader::new(bytes).decode()
}

/// Reads an octet string. Each element with its tag is one.
pub fn octets_of_element(bytes: &[u8]) -> der::Result<OctetStringRef<'_>>
    ensures { (content : List ℕ) → element_of 0x04 (Some content) ≡ Some bytes.now
        → IsOkAnd result (λ octets. octets_of octets ≡ content) }
{
    der::from_der(bytes)
}

/// Returns the element of this tag and content.
pub fn any_of(tag: Tag, content: &[u8]) -> der::Result<AnyRef<'_>>
    ensures within { IsOk result ↔ (length content.now ≤ max_length) }
    ensures tag { IfOk result (λ any. tag_of any ≡ tag) }
    ensures value { IfOk result (λ any. value_of any ≡ content.now) }
{
    let any = AnyRef::new(tag, content)?;
    Ok(any)
}

//! Callers of the calls that read: what a success found meets the rule of its type.
ghost use Rattle.std.specs.Prelude.{◌≡◌, ◌≢◌, ◌∷◌, ◌≤◌, ◌<◌, ◌-◌, ◌++◌, [], ℕ, List, length, drop};
ghost use Rattle.std.specs.Prelude.{Some, None, false, true};
ghost use Rattle.std.specs.Prelude.{IfErr, IfOk, IfSome, IsErr, IsSomeAnd, IsTrue, OnErr};
ghost use Rattle.sec1_der.specs.Contents.{are_bits, bit_string_fault, byte_fault, identifier_fault};
ghost use Rattle.sec1_der.specs.Elements.{element, max_length, IsElement, IsProperPrefix};
ghost use Rattle.sec1_der.specs.Errors.{Refuses};
ghost use Rattle.sec1_der.specs.declared.error.ErrorKind.{ErrorKind};
ghost use Rattle.sec1_der.specs.Identifiers.{IsIdentifier, content_of, identifier_content};
ghost use Rattle.sec1_der.specs.Readers.{reader_over, HasReadElement};
ghost use Rattle.sec1_der.specs.Values.{unused_bits_of, bit_bytes_of};

use sec1_der::{
    AnyRef, BitStringRef, Containing, DecodeValue, ErrorKind, Header, IdentifierRef, Length,
    ObjectIdentifier, OctetStringRef, Record, Result, SecretDocument, SliceReader, Tagged,
    VersionOne, from_der,
};
use std::alloc::Global;

/// Reads a value. Its content meets the rule of its type, and the input is its element.
pub fn from_der_found<'a, T: DecodeValue<'a> + Tagged + Drop>(input: &'a [u8]) -> Result<T>
    ensures { IfOk result (λ value. IsSomeAnd (T.content value) (λ content.
        (T.fault content ≡ None) × (length content ≤ max_length)
        × (input.now ≡ element T.tag_byte content))) }
{
    from_der(input)
}

/// Reads a value. Its content meets the rule of its type, and just its element is read.
pub fn decode_found<'a, T: DecodeValue<'a> + Tagged + Drop>(
    reader: &mut SliceReader<'a>,
) -> Result<T>
    ensures { IfOk result (λ value. IsSomeAnd (T.content value) (λ content.
        (T.fault content ≡ None) × HasReadElement T.tag_byte content reader.old reader.new)) }
{
    reader.decode()
}

/// Reads a field. The content of its value meets the rule of its type.
pub fn field_found<'a, T: DecodeValue<'a> + Tagged + Drop>(
    reader: &mut SliceReader<'a>,
) -> Result<Option<T>>
    ensures { IfOk result (λ field. IfSome field (λ value. IsSomeAnd (T.content value)
        (λ content. (T.fault content ≡ None) × (length content ≤ max_length)
        × HasReadElement 0xA1 (element T.tag_byte content) reader.old reader.new))) }
{
    reader.context_specific(1)
}

/// Reads an identifier, whose content is that of its arcs.
pub fn identifier_found(input: &[u8]) -> Result<ObjectIdentifier>
    ensures { IfOk result (λ arcs. IsIdentifier arcs (content_of arcs)
        × (input.now ≡ element 0x06 (content_of arcs))) }
{
    from_der(input)
}

/// Reads an identifier, whose content meets the rule.
pub fn identifier_rule(input: &[u8]) -> Result<ObjectIdentifier>
    ensures { IfOk result (λ arcs. IsSomeAnd (identifier_content arcs)
        (λ content. identifier_fault content ≡ None)) }
{
    from_der(input)
}

/// Reads a bit string, whose unused bits are zero.
pub fn bits_found(input: &[u8]) -> Result<BitStringRef<'_>>
    ensures { IfOk result (λ bits.
        (bit_string_fault (unused_bits_of bits ∷ bit_bytes_of bits) ≡ None)
        × IsTrue (are_bits (unused_bits_of bits) (bit_bytes_of bits))
        × (input.now ≡ element 0x03 (unused_bits_of bits ∷ bit_bytes_of bits))) }
{
    from_der(input)
}

/// Borrows the content of an identifier, which meets the rule.
pub fn identifier_bytes(identifier: &ObjectIdentifier) -> &[u8]
    ensures is { IsIdentifier identifier.now result.now }
    ensures rule { identifier_fault result.now ≡ None }
    ensures content { identifier_content identifier.now ≡ Some result.now }
{
    identifier.as_bytes()
}

/// Returns the identifier with this content, which meets the rule.
pub fn identifier_of(content: &[u8]) -> Result<ObjectIdentifier>
    ensures is { IfOk result (λ arcs. IsIdentifier arcs content.now) }
    ensures rule { IfOk result (λ arcs. identifier_fault content.now ≡ None) }
    ensures content { IfOk result (λ arcs. identifier_content arcs ≡ Some content.now) }
{
    ObjectIdentifier::from_bytes(content)
}

/// The content of an identifier that a caller has meets the rule.
pub fn identifier_held(identifier: &ObjectIdentifier)
    ensures { IsSomeAnd (identifier_content identifier.now) (λ content.
        IsIdentifier identifier.now content × (identifier_fault content ≡ None)) }
{
    let _ = identifier.as_bytes();
}

/// The content of a bit string that a caller has meets the rule.
pub fn bits_held(bits: &BitStringRef)
    ensures { (bit_string_fault (unused_bits_of bits.now ∷ bit_bytes_of bits.now) ≡ None)
        × (length (bit_bytes_of bits.now) < max_length) }
{
    let _ = bits.unused_bits();
}

/// Reads a version. Any other content is Value.
pub fn other_version(input: &[u8]) -> Result<VersionOne>
    ensures { (content : List ℕ) → length content ≤ max_length
        → input.now ≡ element 0x02 content → content ≢ 1 ∷ []
        → Refuses result ErrorKind.Value }
{
    from_der(input)
}

/// Reads the content of a version. Any other content is Value.
pub fn other_content(reader: &mut SliceReader) -> Result<VersionOne>
    requires { length reader.old.unread ≤ max_length }
    ensures { reader.old.failed ≡ false → reader.old.unread ≢ 1 ∷ []
        → Refuses result ErrorKind.Value }
{
    VersionOne::decode_value(reader)
}

/// Creates a document. An element with bytes after it is TrailingData.
pub fn longer_document(alloc: Global, bytes: &[u8]) -> Result<SecretDocument>
    ensures { (whole : List ℕ) → IsElement whole → IsProperPrefix whole bytes.now
        → Refuses result ErrorKind.TrailingData }
{
    SecretDocument::from_der(alloc, bytes)
}

/// Reads a value from its content. An error leaves no more input than there was, and none of it
/// is new.
pub fn left_over<'a, T: DecodeValue<'a>>(reader: &mut SliceReader<'a>) -> Result<T>
    requires { length reader.old.unread ≤ max_length }
    ensures fewer { OnErr result (length reader.new.unread ≤ length reader.old.unread) }
    ensures last { OnErr result (reader.new.unread
        ≡ drop (length reader.old.unread - length reader.new.unread) reader.old.unread) }
{
    T::decode_value(reader)
}

/// Returns the value twice: an element inside an OCTET STRING is copied as what it contains.
pub fn twice(value: Containing<VersionOne>) -> (Containing<VersionOne>, Containing<VersionOne>)
    ensures { (result.0 ≡ value) × (result.1 ≡ value) }
{
    (value, value)
}

/// Returns `true` if the values are the same.
pub fn are_same(a: &Containing<VersionOne>, b: &Containing<VersionOne>) -> bool
    ensures { a.now ≡ b.now → IsTrue result }
{
    a == b
}

/// Returns the value inside an OCTET STRING again.
pub fn again<A: Record>(value: &Containing<A>) -> Containing<A>
    ensures { result ≡ value.now }
{
    value.reborrow()
}

/// Reads a value. An element whose content the rule of its type refuses is refused by that kind.
pub fn refused_content<'a, T: DecodeValue<'a> + Tagged + Drop>(input: &'a [u8]) -> Result<T>
    ensures { (content : List ℕ) (kind : ErrorKind) → length content ≤ max_length
        → input.now ≡ element T.tag_byte content → T.fault content ≡ Some (Some kind)
        → Refuses result kind }
{
    from_der(input)
}

/// Reads a value from the beginning of the remaining input, in the same way.
pub fn refused_next<'a, T: DecodeValue<'a> + Tagged + Drop>(
    reader: &mut SliceReader<'a>,
) -> Result<T>
    ensures { (content rest : List ℕ) (kind : ErrorKind) → length content ≤ max_length
        → reader.old ≡ reader_over (element T.tag_byte content ++ rest)
        → T.fault content ≡ Some (Some kind) → Refuses result kind }
{
    reader.decode()
}

/// Reads the content of a bit string. Unused bits that aren't zero are Value.
pub fn other_bits<'a>(reader: &mut SliceReader<'a>) -> Result<BitStringRef<'a>>
    requires { length reader.old.unread ≤ max_length }
    ensures { (unused : ℕ) (bytes : List ℕ) → reader.old ≡ reader_over (unused ∷ bytes)
        → ¬ IsTrue (are_bits unused bytes) → Refuses result ErrorKind.Value }
{
    BitStringRef::decode_value(reader)
}

/// Reads a bit string. A content that the rule doesn't accept is Value.
pub fn other_bit_string(input: &[u8]) -> Result<BitStringRef<'_>>
    ensures { (content : List ℕ) → length content ≤ max_length
        → input.now ≡ element 0x03 content → bit_string_fault content ≢ None
        → IfErr result (λ e. bit_string_fault content ≡ Some (Some e.kind)) × IsErr result }
{
    from_der(input)
}

/// Reads a bit string. Unused bits that aren't zero are Value.
pub fn other_unused_bits(input: &[u8]) -> Result<BitStringRef<'_>>
    ensures { (content : List ℕ) (unused : ℕ) (bytes : List ℕ) → length content ≤ max_length
        → input.now ≡ element 0x03 content → content ≡ unused ∷ bytes
        → ¬ IsTrue (are_bits unused bytes) → Refuses result ErrorKind.Value }
{
    from_der(input)
}

/// Reads an identifier. A content of none is Value.
pub fn other_identifier(input: &[u8]) -> Result<ObjectIdentifier>
    ensures { (content : List ℕ) → length content ≤ max_length
        → input.now ≡ element 0x06 content
        → ((arcs : List ℕ) → ¬ IsIdentifier arcs content) → Refuses result ErrorKind.Value }
{
    from_der(input)
}

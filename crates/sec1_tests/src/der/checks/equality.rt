//! What `==`, `!=` and `clone` say of the values of `sec1_der`, as a caller meets them.
ghost use Rattle.std.specs.Prelude.{◌≡◌, ◌≢◌, ◌↔◌, IsTrue, IsOkAnd, [], ◌∷◌};
ghost use Rattle.sec1_der.specs.Values.{octets_of, unused_bits_of, bit_bytes_of, tag_of, value_of};

use sec1_der::{
    AnyRef, BitStringRef, Context0, Error, ErrorKind, Explicit, Header, ID_EC_PUBLIC_KEY, IoFault,
    Length, ObjectIdentifier, OctetStringRef, Optional, Required, SmallInteger, Tag, VersionOne,
};
use std::alloc::AllocError;

/// The result of a clone.
type Cloned<T> = std::result::Result<T, AllocError>;

/// Two lengths are equal exactly where their numbers are.
pub fn same_length(a: Length, b: Length) -> bool
    ensures { IsTrue result ↔ (a ≡ b) }
{
    a == b
}

/// Two tags are equal exactly where their bytes are.
pub fn same_tag(a: Tag, b: Tag) -> bool
    ensures { IsTrue result ↔ (a ≡ b) }
{
    a == b
}

/// Two headers are equal exactly where their tags and their lengths are.
pub fn same_header(a: Header, b: Header) -> bool
    ensures { IsTrue result ↔ ((a.tag ≡ b.tag) × (a.length ≡ b.length)) }
{
    a == b
}

/// Two versions are equal.
pub fn same_version(a: VersionOne, b: VersionOne) -> bool
    ensures { IsTrue result }
{
    a == b
}

/// Two octet strings are equal exactly where their bytes are.
pub fn same_octet_string(a: &OctetStringRef, b: &OctetStringRef) -> bool
    ensures { IsTrue result ↔ (octets_of a.now ≡ octets_of b.now) }
{
    *a == *b
}

/// Two bit strings are equal exactly where their bytes and their counts of unused bits are.
pub fn same_bit_string(a: &BitStringRef, b: &BitStringRef) -> bool
    ensures { IsTrue result ↔ ((unused_bits_of a.now ≡ unused_bits_of b.now)
        × (bit_bytes_of a.now ≡ bit_bytes_of b.now)) }
{
    *a == *b
}

/// Two elements of any tag are equal exactly where their tags and their contents are.
pub fn same_any(a: &AnyRef, b: &AnyRef) -> bool
    ensures { IsTrue result ↔ ((tag_of a.now ≡ tag_of b.now) × (value_of a.now ≡ value_of b.now)) }
{
    *a == *b
}

/// Two identifiers are equal exactly where their arcs are.
pub fn same_identifier(a: ObjectIdentifier, b: ObjectIdentifier) -> bool
    ensures { IsTrue result ↔ (a ≡ b) }
{
    a == b
}

/// Two kinds are equal exactly where they are the same.
pub fn same_kind(a: ErrorKind, b: ErrorKind) -> bool
    ensures { IsTrue result ↔ (a ≡ b) }
{
    a == b
}

/// Two errors are equal exactly where their kinds are.
pub fn same_error(a: &Error, b: &Error) -> bool
    ensures { IsTrue result ↔ (a.now ≡ b.now) }
{
    *a == *b
}

/// Two lengths differ exactly where their numbers do.
pub fn other_length(a: Length, b: Length) -> bool
    ensures { IsTrue result ↔ (a ≢ b) }
{
    a != b
}

/// Two tags differ exactly where their bytes do.
pub fn other_tag(a: Tag, b: Tag) -> bool
    ensures { IsTrue result ↔ (a ≢ b) }
{
    a != b
}

/// Two headers differ exactly where their tags or their lengths do.
pub fn other_header(a: Header, b: Header) -> bool
    ensures { IsTrue result ↔ (a ≢ b) }
{
    a != b
}

/// Two octet strings differ exactly where their bytes do.
pub fn other_octet_string(a: &OctetStringRef, b: &OctetStringRef) -> bool
    ensures { IsTrue result ↔ (octets_of a.now ≢ octets_of b.now) }
{
    *a != *b
}

/// Two bit strings differ exactly where their bytes or their counts of unused bits do.
pub fn other_bit_string(a: &BitStringRef, b: &BitStringRef) -> bool
    ensures { IsTrue result ↔ ¬ ((unused_bits_of a.now ≡ unused_bits_of b.now)
        × (bit_bytes_of a.now ≡ bit_bytes_of b.now)) }
{
    *a != *b
}

/// Two elements of any tag differ exactly where their tags or their contents do.
pub fn other_any(a: &AnyRef, b: &AnyRef) -> bool
    ensures { IsTrue result ↔ ¬ ((tag_of a.now ≡ tag_of b.now)
        × (value_of a.now ≡ value_of b.now)) }
{
    *a != *b
}

/// Two identifiers differ exactly where their arcs do.
pub fn other_identifier(a: ObjectIdentifier, b: ObjectIdentifier) -> bool
    ensures { IsTrue result ↔ (a ≢ b) }
{
    a != b
}

/// Two kinds differ exactly where they aren't the same.
pub fn other_kind(a: ErrorKind, b: ErrorKind) -> bool
    ensures { IsTrue result ↔ (a ≢ b) }
{
    a != b
}

/// Two errors differ exactly where their kinds do.
pub fn other_error(a: &Error, b: &Error) -> bool
    ensures { IsTrue result ↔ (a.now ≢ b.now) }
{
    *a != *b
}

/// An identifier is compared with a constant by its arcs.
pub fn is_id_ec_public_key(identifier: ObjectIdentifier) -> bool
    ensures { IsTrue result ↔ (identifier ≡ 1 ∷ 2 ∷ 840 ∷ 10045 ∷ 2 ∷ 1 ∷ []) }
{
    identifier == ID_EC_PUBLIC_KEY
}

/// A tag is compared with a constant by its byte.
pub fn is_sequence(tag: Tag) -> bool
    ensures { IsTrue result ↔ (tag ≡ 0x30) }
{
    tag == Tag::SEQUENCE
}

/// The tag of a borrowed header is compared with a constant.
pub fn begins_sequence(header: &Header) -> bool
    ensures { IsTrue result ↔ (header.now.tag ≡ 0x30) }
{
    header.tag == Tag::SEQUENCE
}

/// The kind of a borrowed error is compared with a variant.
pub fn is_truncated(error: &Error) -> bool
    ensures { IsTrue result ↔ (error.now.kind ≡ ErrorKind.Truncated) }
{
    error.kind == ErrorKind::Truncated
}

/// Two borrowed identifiers differ exactly where their arcs do.
pub fn other_borrowed_identifier(a: &ObjectIdentifier, b: &ObjectIdentifier) -> bool
    ensures { IsTrue result ↔ (a.now ≢ b.now) }
{
    a != b
}

/// The clone of a length is the same, and never fails.
pub fn cloned_length(value: &Length) -> Cloned<Length>
    ensures { IsOkAnd result (λ cloned. cloned ≡ value.now) }
{
    value.clone()
}

/// The clone of a tag is the same, and never fails.
pub fn cloned_tag(value: &Tag) -> Cloned<Tag>
    ensures { IsOkAnd result (λ cloned. cloned ≡ value.now) }
{
    value.clone()
}

/// The clone of a header is the same, and never fails.
pub fn cloned_header(value: &Header) -> Cloned<Header>
    ensures { IsOkAnd result (λ cloned. cloned ≡ value.now) }
{
    value.clone()
}

/// The clone of a version is the same, and never fails.
pub fn cloned_version(value: &VersionOne) -> Cloned<VersionOne>
    ensures { IsOkAnd result (λ cloned. cloned ≡ value.now) }
{
    value.clone()
}

/// The clone of an octet string is the same, and never fails.
pub fn cloned_octet_string<'a>(value: &OctetStringRef<'a>) -> Cloned<OctetStringRef<'a>>
    ensures { IsOkAnd result (λ cloned. cloned ≡ value.now) }
{
    value.clone()
}

/// The clone of a bit string is the same, and never fails.
pub fn cloned_bit_string<'a>(value: &BitStringRef<'a>) -> Cloned<BitStringRef<'a>>
    ensures { IsOkAnd result (λ cloned. cloned ≡ value.now) }
{
    value.clone()
}

/// The clone of an element of any tag is the same, and never fails.
pub fn cloned_any<'a>(value: &AnyRef<'a>) -> Cloned<AnyRef<'a>>
    ensures { IsOkAnd result (λ cloned. cloned ≡ value.now) }
{
    value.clone()
}

/// The clone of an identifier is the same, and never fails.
pub fn cloned_identifier(value: &ObjectIdentifier) -> Cloned<ObjectIdentifier>
    ensures { IsOkAnd result (λ cloned. cloned ≡ value.now) }
{
    value.clone()
}

/// The clone of a kind is the same, and never fails.
pub fn cloned_kind(value: &ErrorKind) -> Cloned<ErrorKind>
    ensures { IsOkAnd result (λ cloned. cloned ≡ value.now) }
{
    value.clone()
}

/// Two required components are equal exactly where what they hold is.
pub fn same_required(a: &Required<ObjectIdentifier>, b: &Required<ObjectIdentifier>) -> bool
    ensures { IsTrue result ↔ (a.now ≡ b.now) }
{
    a == b
}

/// Two optional components are equal exactly where what they hold is.
pub fn same_optional(a: &Optional<ObjectIdentifier>, b: &Optional<ObjectIdentifier>) -> bool
    ensures { IsTrue result ↔ (a.now ≡ b.now) }
{
    a == b
}

/// All numbers of one type are equal.
pub fn same_small_integer(a: &SmallInteger<1>, b: &SmallInteger<1>) -> bool
    ensures { IsTrue result }
{
    a == b
}

/// All faults of a stream are equal.
pub fn same_fault(a: IoFault, b: IoFault) -> bool
    ensures { IsTrue result }
{
    a == b
}

/// No two versions differ.
pub fn other_version(a: VersionOne, b: VersionOne) -> bool
    ensures { ¬ IsTrue result }
{
    a != b
}

/// Two required components differ exactly where what they hold does.
pub fn other_required(a: &Required<ObjectIdentifier>, b: &Required<ObjectIdentifier>) -> bool
    ensures { IsTrue result ↔ (a.now ≢ b.now) }
{
    a != b
}

/// Two optional components differ exactly where what they hold does.
pub fn other_optional(a: &Optional<ObjectIdentifier>, b: &Optional<ObjectIdentifier>) -> bool
    ensures { IsTrue result ↔ (a.now ≢ b.now) }
{
    a != b
}

/// No two numbers of one type differ.
pub fn other_small_integer(a: &SmallInteger<1>, b: &SmallInteger<1>) -> bool
    ensures { ¬ IsTrue result }
{
    a != b
}

/// No two faults of a stream differ.
pub fn other_fault(a: IoFault, b: IoFault) -> bool
    ensures { ¬ IsTrue result }
{
    a != b
}

/// The clone of a required component is the same, and never fails.
pub fn cloned_required(value: &Required<ObjectIdentifier>) -> Cloned<Required<ObjectIdentifier>>
    ensures { IsOkAnd result (λ cloned. cloned ≡ value.now) }
{
    value.clone()
}

/// The clone of an optional component is the same, and never fails.
pub fn cloned_optional(value: &Optional<ObjectIdentifier>) -> Cloned<Optional<ObjectIdentifier>>
    ensures { IsOkAnd result (λ cloned. cloned ≡ value.now) }
{
    value.clone()
}

/// The clone of a number is the same, and never fails.
pub fn cloned_small_integer(value: &SmallInteger<1>) -> Cloned<SmallInteger<1>>
    ensures { IsOkAnd result (λ cloned. cloned ≡ value.now) }
{
    value.clone()
}

/// The clone of a fault of a stream is the same, and never fails.
pub fn cloned_fault(value: &IoFault) -> Cloned<IoFault>
    ensures { IsOkAnd result (λ cloned. cloned ≡ value.now) }
{
    value.clone()
}

/// Two values with an explicit tag are equal exactly where the values are.
pub fn same_explicit(
    a: &Explicit<Context0, ObjectIdentifier>,
    b: &Explicit<Context0, ObjectIdentifier>,
) -> bool
    ensures { IsTrue result ↔ (a.now ≡ b.now) }
{
    a == b
}

/// Two values with an explicit tag differ exactly where the values do.
pub fn other_explicit(
    a: &Explicit<Context0, ObjectIdentifier>,
    b: &Explicit<Context0, ObjectIdentifier>,
) -> bool
    ensures { IsTrue result ↔ (a.now ≢ b.now) }
{
    a != b
}

/// The clone of a value with an explicit tag is the same, and never fails.
pub fn cloned_explicit(
    value: &Explicit<Context0, ObjectIdentifier>,
) -> Cloned<Explicit<Context0, ObjectIdentifier>>
    ensures { IsOkAnd result (λ cloned. cloned ≡ value.now) }
{
    value.clone()
}

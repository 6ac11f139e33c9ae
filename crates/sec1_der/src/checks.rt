//! States the values of the constants, and what the writers leave in a slice. Nothing calls these
//! functions: their contracts refuse other values, and a writer that changes the rest of the slice.
ghost use Rattle.std.specs.Prelude.{◌≡◌, ◌<◌, ◌≤◌, [], ◌∷◌, ◌++◌, length, take, drop, ◌-◌};
ghost use Rattle.std.specs.Prelude.{MatchResult};

use crate::{
    BackWriter, BitStringRef, ErrorKind, FixedTag, ID_EC_PUBLIC_KEY, ObjectIdentifier,
    OctetStringRef, Result, SECP256R1, SliceWriter, Tag, Tagged, VersionOne,
};

/// Returns the constants of [`Tag`] for universal types (X.680 section 8.4), in the order of their
/// bytes.
pub fn universal_tags() -> [Tag; 19]
    ensures { result ≡ 0x01 ∷ 0x02 ∷ 0x03 ∷ 0x04 ∷ 0x05 ∷ 0x06 ∷ 0x0A ∷ 0x0C ∷ 0x12 ∷ 0x13
        ∷ 0x14 ∷ 0x16 ∷ 0x17 ∷ 0x18 ∷ 0x1A ∷ 0x1C ∷ 0x1E ∷ 0x30 ∷ 0x31 ∷ [] }
{
    [
        Tag::BOOLEAN,
        Tag::INTEGER,
        Tag::BIT_STRING,
        Tag::OCTET_STRING,
        Tag::NULL,
        Tag::OBJECT_IDENTIFIER,
        Tag::ENUMERATED,
        Tag::UTF8_STRING,
        Tag::NUMERIC_STRING,
        Tag::PRINTABLE_STRING,
        Tag::TELETEX_STRING,
        Tag::IA5_STRING,
        Tag::UTC_TIME,
        Tag::GENERALIZED_TIME,
        Tag::VISIBLE_STRING,
        Tag::UNIVERSAL_STRING,
        Tag::BMP_STRING,
        Tag::SEQUENCE,
        Tag::SET,
    ]
}

/// Returns the constants of [`Tag`] for context-specific tags (X.690 section 8.1.2.2): `[0]` to
/// `[3]` of constructed elements, and of primitive ones.
pub fn context_tags() -> [Tag; 8]
    ensures { result ≡ 0xA0 ∷ 0xA1 ∷ 0xA2 ∷ 0xA3 ∷ 0x80 ∷ 0x81 ∷ 0x82 ∷ 0x83 ∷ [] }
{
    [
        Tag::CONTEXT_0,
        Tag::CONTEXT_1,
        Tag::CONTEXT_2,
        Tag::CONTEXT_3,
        Tag::PRIMITIVE_0,
        Tag::PRIMITIVE_1,
        Tag::PRIMITIVE_2,
        Tag::PRIMITIVE_3,
    ]
}

/// Returns [`ID_EC_PUBLIC_KEY`], 1.2.840.10045.2.1 (RFC 5480 section 2.1.1).
pub fn id_ec_public_key() -> ObjectIdentifier
    ensures { result ≡ 1 ∷ 2 ∷ 840 ∷ 10045 ∷ 2 ∷ 1 ∷ [] }
{
    ID_EC_PUBLIC_KEY
}

/// Returns [`SECP256R1`], 1.2.840.10045.3.1.7 (RFC 5480 section 2.1.1.1).
pub fn secp256r1() -> ObjectIdentifier
    ensures { result ≡ 1 ∷ 2 ∷ 840 ∷ 10045 ∷ 3 ∷ 1 ∷ 7 ∷ [] }
{
    SECP256R1
}

/// Returns [`FixedTag::TAG`] of [`VersionOne`], which is its [`fixed_tag`](Tagged::fixed_tag).
pub fn version_tag() -> Tag
    ensures { result ≡ ⟦<VersionOne as Tagged>⟧.tag_byte }
{
    VersionOne::TAG
}

/// Returns [`FixedTag::TAG`] of [`OctetStringRef`], which is its [`fixed_tag`](Tagged::fixed_tag).
pub fn octet_string_tag() -> Tag
    ensures { result ≡ ⟦<OctetStringRef<'static> as Tagged>⟧.tag_byte }
{
    OctetStringRef::TAG
}

/// Returns [`FixedTag::TAG`] of [`BitStringRef`], which is its [`fixed_tag`](Tagged::fixed_tag).
pub fn bit_string_tag() -> Tag
    ensures { result ≡ ⟦<BitStringRef<'static> as Tagged>⟧.tag_byte }
{
    BitStringRef::TAG
}

/// Returns [`FixedTag::TAG`] of [`ObjectIdentifier`], which is its
/// [`fixed_tag`](Tagged::fixed_tag).
pub fn identifier_tag() -> Tag
    ensures { result ≡ ⟦<ObjectIdentifier as Tagged>⟧.tag_byte }
{
    ObjectIdentifier::TAG
}

/// Writes bytes at the beginning of a slice by a [`SliceWriter`]. The rest of the slice is
/// unchanged after the writer has been dropped.
///
/// # Errors
///
/// Buffer if the slice is too short. The whole slice is unchanged then.
pub fn writes_forwards(buffer: &mut [u8], bytes: &[u8]) -> Result<()>
    ensures { MatchResult result
        (λ _. (length bytes.now ≤ length buffer.old)
        × (buffer.new ≡ bytes.now ++ drop (length bytes.now) buffer.old))
        (λ e. (e.kind ≡ ErrorKind.Buffer) × (length buffer.old < length bytes.now)
        × (buffer.new ≡ buffer.old)) }
{
    SliceWriter::new(buffer).write(bytes)
}

/// Writes bytes at the end of a slice by a [`BackWriter`]. The rest of the slice is unchanged after
/// the writer has been dropped.
///
/// # Errors
///
/// Buffer if the slice is too short. The whole slice is unchanged then.
pub fn writes_backwards(buffer: &mut [u8], bytes: &[u8]) -> Result<()>
    ensures { MatchResult result
        (λ _. (length bytes.now ≤ length buffer.old)
        × (buffer.new ≡ take (length buffer.old - length bytes.now) buffer.old ++ bytes.now))
        (λ e. (e.kind ≡ ErrorKind.Buffer) × (length buffer.old < length bytes.now)
        × (buffer.new ≡ buffer.old)) }
{
    BackWriter::new(buffer).write(bytes)
}

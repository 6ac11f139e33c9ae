//! OBJECT IDENTIFIER of any length.
ghost use Rattle.std.specs.Prelude.{◌≡◌};
ghost use Rattle.der_types.specs.ObjectIdentifiers.{is_object_identifier};

use crate::{Kind, Leaf};
use sec1_der::{Tag, Tagged};

/// Returns `true` if the bytes are the content of an OBJECT IDENTIFIER (X.690 section 8.19): one or
/// more subidentifiers, each in as few bytes as possible.
fn is_object_identifier(bytes: &[u8]) -> bool
    ensures { result ≡ is_object_identifier bytes.now }
{
    let mut begins = true;
    for byte in bytes {
        if begins && *byte == 0x80 {
            return false;
        }
        begins = *byte < 0x80;
    }
    begins && !bytes.is_empty()
}

/// The kind of an OBJECT IDENTIFIER of any length (X.690 section 8.19).
pub struct ObjectIdentifierKind;

impl Tagged for ObjectIdentifierKind {
    ghost tag_byte = { 0x06 };

    fn fixed_tag() -> Tag {
        Tag::OBJECT_IDENTIFIER
    }
}

impl Kind for ObjectIdentifierKind {
    ghost passes = { is_object_identifier };

    fn test(bytes: &[u8]) -> bool {
        is_object_identifier(bytes)
    }
}

/// An OBJECT IDENTIFIER of any length, which borrows its content (X.690 section 8.19).
pub type ObjectIdentifierRef<'a> = Leaf<'a, ObjectIdentifierKind>;

ghost use Rattle.der_types.specs.Strings.{is_ia5};

use der_types::{Kind, Leaf};
use sec1_der::{Tag, Tagged};

/// The kind of a GeneralString (X.680 section 41) of ASCII characters alone.
pub struct AsciiString;

impl Tagged for AsciiString {
    ghost tag_byte = { 0x1B };

    fn fixed_tag() -> Tag {
        match Tag::from_byte(0x1B) {
            Ok(tag) => tag,
            Err(_) => unreachable!(),
        }
    }
}

impl Kind for AsciiString {
    ghost passes = { is_ia5 };

    fn test(bytes: &[u8]) -> bool {
        bytes.iter().all(|byte| *byte < 0x80)
    }
}

/// A GeneralString of ASCII characters, which borrows them.
pub type GeneralString<'a> = Leaf<'a, AsciiString>;

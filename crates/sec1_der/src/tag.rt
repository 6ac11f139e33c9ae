ghost use Rattle.std.specs.Prelude.{◌≡◌, ◌+◌, ◌≤◌, ◌↔◌, ◌∷◌, MatchResult, IsTrue, ℕ, [], Some};
ghost use Rattle.std.specs.Prelude.{codes};
ghost use Rattle.std.specs.Fmt.{decimal};
ghost use Rattle.std.specs.Int.{IsBitSet};
ghost use Rattle.sec1_der.specs.Errors.{struct_text};
ghost use Rattle.sec1_der.specs.Elements.{is_tag};

use crate::{ErrorKind, Result};
use std::marker::Model;

/// The tag byte of an element (X.690 section 8.1.2). A contract sees its number.
#[derive(Clone, Copy, Debug, PartialEq, Eq)]
pub struct Tag {
    byte: u8,
}

impl Model for Tag {
    ghost Value = { ℕ };

    ghost view = { λ t. t.byte };

    ghost invariant = { λ t. IsTrue (is_tag t.byte) };

    ghost inverse = { λ n. record { byte = n } };
}

/// The tag byte of an explicit field `[0]`: the class context-specific, and constructed (X.690
/// section 8.1.2).
const EXPLICIT: u8 = 0xA0;

impl Tag {
    /// `01`, of a BOOLEAN.
    pub const BOOLEAN: Tag = Tag { byte: 0x01 };

    /// `02`, of an INTEGER.
    pub const INTEGER: Tag = Tag { byte: 0x02 };

    /// `03`, of a BIT STRING.
    pub const BIT_STRING: Tag = Tag { byte: 0x03 };

    /// `04`, of an OCTET STRING.
    pub const OCTET_STRING: Tag = Tag { byte: 0x04 };

    /// `05`, of a NULL.
    pub const NULL: Tag = Tag { byte: 0x05 };

    /// `06`, of an OBJECT IDENTIFIER.
    pub const OBJECT_IDENTIFIER: Tag = Tag { byte: 0x06 };

    /// `0A`, of an ENUMERATED.
    pub const ENUMERATED: Tag = Tag { byte: 0x0A };

    /// `0C`, of a UTF8String.
    pub const UTF8_STRING: Tag = Tag { byte: 0x0C };

    /// `12`, of a NumericString.
    pub const NUMERIC_STRING: Tag = Tag { byte: 0x12 };

    /// `13`, of a PrintableString.
    pub const PRINTABLE_STRING: Tag = Tag { byte: 0x13 };

    /// `14`, of a TeletexString.
    pub const TELETEX_STRING: Tag = Tag { byte: 0x14 };

    /// `16`, of an IA5String.
    pub const IA5_STRING: Tag = Tag { byte: 0x16 };

    /// `17`, of a UTCTime.
    pub const UTC_TIME: Tag = Tag { byte: 0x17 };

    /// `18`, of a GeneralizedTime.
    pub const GENERALIZED_TIME: Tag = Tag { byte: 0x18 };

    /// `1A`, of a VisibleString.
    pub const VISIBLE_STRING: Tag = Tag { byte: 0x1A };

    /// `1C`, of a UniversalString.
    pub const UNIVERSAL_STRING: Tag = Tag { byte: 0x1C };

    /// `1E`, of a BMPString.
    pub const BMP_STRING: Tag = Tag { byte: 0x1E };

    /// `30`, of a SEQUENCE.
    pub const SEQUENCE: Tag = Tag { byte: 0x30 };

    /// `31`, of a SET.
    pub const SET: Tag = Tag { byte: 0x31 };

    /// `A0`, of a constructed element with the tag `[0]`.
    pub const CONTEXT_0: Tag = Tag { byte: EXPLICIT };

    /// `A1`, of a constructed element with the tag `[1]`.
    pub const CONTEXT_1: Tag = Tag { byte: EXPLICIT + 1 };

    /// `A2`, of a constructed element with the tag `[2]`.
    pub const CONTEXT_2: Tag = Tag { byte: EXPLICIT + 2 };

    /// `A3`, of a constructed element with the tag `[3]`.
    pub const CONTEXT_3: Tag = Tag { byte: EXPLICIT + 3 };

    /// `80`, of a primitive element with the tag `[0]`.
    pub const PRIMITIVE_0: Tag = Tag { byte: 0x80 };

    /// `81`, of a primitive element with the tag `[1]`.
    pub const PRIMITIVE_1: Tag = Tag { byte: 0x81 };

    /// `82`, of a primitive element with the tag `[2]`.
    pub const PRIMITIVE_2: Tag = Tag { byte: 0x82 };

    /// `83`, of a primitive element with the tag `[3]`.
    pub const PRIMITIVE_3: Tag = Tag { byte: 0x83 };

    /// Returns the tag with this byte.
    ///
    /// # Errors
    ///
    /// Tag if the byte is `00`, which is reserved for end-of-contents (X.690 section 8.1.5), or if
    /// its low five bits are all ones, since it begins a high tag number (section 8.1.2.4).
    // Each of the two arms becomes a branch. Of one test with `||` LLVM makes both comparisons and
    // joins their results, which takes more instructions.
    #[inline(always)]
    #[tactic(auto, using(std::proofs::lemmas::Bool::Decides::nat_tests))]
    pub fn from_byte(byte: u8) -> Result<Tag>
        ensures { MatchResult result (λ tag. IsTrue (is_tag byte) × (tag ≡ byte))
            (λ e. ¬ IsTrue (is_tag byte) × (e.kind ≡ ErrorKind.Tag)) }
    {
        match byte {
            0 => Err(ErrorKind::Tag.into()),
            _ if byte % 32 == 31 => Err(ErrorKind::Tag.into()),
            _ => Ok(Tag { byte }),
        }
    }

    /// Returns the tag with this byte, which is that of a tag.
    pub(crate) fn of_byte(byte: u8) -> Tag
        requires { IsTrue (is_tag byte) }
        ensures { result ≡ byte }
    {
        Tag { byte }
    }

    /// Returns the tag of an explicit field `[number]`.
    #[tactic(auto, using(std::proofs::lemmas::Bool::Decides::nat_tests))]
    pub(crate) fn context(number: u8) -> Tag
        requires { number ≤ 30 }
        ensures { result ≡ 0xA0 + number }
    {
        Tag {
            byte: EXPLICIT + number,
        }
    }

    /// Returns the tag byte.
    pub fn byte(self) -> u8
        ensures { (result ≡ self) × IsTrue (is_tag result) }
    {
        self.byte
    }

    /// Returns `true` if the content consists of elements: bit 20 (hexadecimal) is set (X.690
    /// section 8.1.2.5).
    pub fn is_constructed(self) -> bool
        ensures { IsTrue result ↔ IsBitSet self 5 }
    {
        self.byte & 0x20 != 0
    }
}

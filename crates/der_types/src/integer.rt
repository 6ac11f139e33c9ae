//! INTEGER and ENUMERATED.
ghost use Rattle.std.specs.Prelude.{◌≡◌};
ghost use Rattle.der_types.specs.Integers.{is_integer, is_unsigned};

use crate::{Kind, Leaf};
use sec1_der::{Tag, Tagged};

/// Returns `true` if the bytes are the content of an INTEGER (X.690 section 8.3): two's complement
/// in as few bytes as possible.
pub(crate) fn is_integer(bytes: &[u8]) -> bool
    ensures { result ≡ is_integer bytes.now }
{
    match bytes {
        [] => false,
        [_] => true,
        [first, second, ..] => !matches!(
            (*first, *second),
            (0x00, 0x00..=0x7F) | (0xFF, 0x80..=0xFF)
        ),
    }
}

/// Returns `true` if the bytes are the content of an INTEGER that isn't negative (X.690
/// section 8.3).
pub(crate) fn is_unsigned(bytes: &[u8]) -> bool
    ensures { result ≡ is_unsigned bytes.now }
{
    is_integer(bytes) && bytes[0] < 0x80
}

/// The kind of an INTEGER: a number in two's complement, in as few bytes as possible (X.690 section
/// 8.3).
pub struct IntegerKind;

impl Tagged for IntegerKind {
    ghost tag_byte = { 0x02 };

    fn fixed_tag() -> Tag {
        Tag::INTEGER
    }
}

impl Kind for IntegerKind {
    ghost passes = { is_integer };

    fn test(bytes: &[u8]) -> bool {
        is_integer(bytes)
    }
}

/// An INTEGER, which borrows its content: a number in two's complement, in as few bytes as possible
/// (X.690 section 8.3). [`Unsigned`](crate::Unsigned) is one whose contracts see the number.
pub type Integer<'a> = Leaf<'a, IntegerKind>;

/// The kind of an ENUMERATED: a number in two's complement, in as few bytes as possible (X.690
/// section 8.4).
pub struct EnumeratedKind;

impl Tagged for EnumeratedKind {
    ghost tag_byte = { 0x0A };

    fn fixed_tag() -> Tag {
        Tag::ENUMERATED
    }
}

impl Kind for EnumeratedKind {
    ghost passes = { is_integer };

    fn test(bytes: &[u8]) -> bool {
        is_integer(bytes)
    }
}

/// An ENUMERATED, which borrows its content: a number in two's complement, in as few bytes as
/// possible (X.690 section 8.4).
pub type Enumerated<'a> = Leaf<'a, EnumeratedKind>;

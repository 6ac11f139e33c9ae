//! The restricted character strings of X.680 section 41.
ghost use Rattle.std.specs.Prelude.{◌≡◌, ◌==◌, ◌%◌, true, length};
ghost use Rattle.std.specs.Str.{is_utf8};
ghost use Rattle.der_types.specs.Strings.{
  is_ia5,
  is_numeric_character,
  is_numeric_string,
  is_printable,
  is_printable_character,
  is_visible,
};

use crate::{Kind, Leaf};
use sec1_der::{Tag, Tagged};
use std::str;

/// Returns `true` if the bytes are the content of a UTF8String: the UTF-8 of some characters.
#[tactic(auto, using(crate::proofs::StringLemmas::utf8_tests))]
fn is_utf8(bytes: &[u8]) -> bool
    ensures { result ≡ is_utf8 bytes.now }
{
    str::from_utf8(bytes).is_ok()
}

/// Returns `true` if the bytes are the content of a NumericString: digits and spaces.
fn is_numeric_string(bytes: &[u8]) -> bool
    ensures { result ≡ is_numeric_string bytes.now }
{
    bytes.iter().all(|byte| is_numeric_character(*byte))
}

/// Returns `true` if a NumericString may have this character.
fn is_numeric_character(character: u8) -> bool
    ensures { result ≡ is_numeric_character character }
{
    character.is_ascii_digit() || character == b' '
}

/// Returns `true` if the bytes are the content of a PrintableString: letters, digits, spaces and
/// `'()+,-./:=?`.
fn is_printable(bytes: &[u8]) -> bool
    ensures { result ≡ is_printable bytes.now }
{
    bytes.iter().all(|byte| is_printable_character(*byte))
}

/// Returns `true` if a PrintableString may have this character.
fn is_printable_character(character: u8) -> bool
    ensures { result ≡ is_printable_character character }
{
    character.is_ascii_alphanumeric() || b" '()+,-./:=?".contains(&character)
}

/// Returns `true` if the bytes are the content of an IA5String: characters below 80 (hexadecimal).
fn is_ia5(bytes: &[u8]) -> bool
    ensures { result ≡ is_ia5 bytes.now }
{
    bytes.iter().all(|byte| byte.is_ascii())
}

/// Returns `true` if the bytes are the content of a VisibleString: characters that print, and
/// spaces.
fn is_visible(bytes: &[u8]) -> bool
    ensures { result ≡ is_visible bytes.now }
{
    bytes.iter().all(|byte| matches!(byte, 0x20..=0x7E))
}

/// The kind of a UTF8String (X.680 section 41).
pub struct Utf8StringKind;

impl Tagged for Utf8StringKind {
    ghost tag_byte = { 0x0C };

    fn fixed_tag() -> Tag {
        Tag::UTF8_STRING
    }
}

impl Kind for Utf8StringKind {
    ghost passes = { is_utf8 };

    fn test(bytes: &[u8]) -> bool {
        is_utf8(bytes)
    }
}

/// A UTF8String, which borrows its characters (X.680 section 41).
pub type Utf8String<'a> = Leaf<'a, Utf8StringKind>;

/// The kind of a NumericString: digits and spaces (X.680 section 41.2).
pub struct NumericStringKind;

impl Tagged for NumericStringKind {
    ghost tag_byte = { 0x12 };

    fn fixed_tag() -> Tag {
        Tag::NUMERIC_STRING
    }
}

impl Kind for NumericStringKind {
    ghost passes = { is_numeric_string };

    fn test(bytes: &[u8]) -> bool {
        is_numeric_string(bytes)
    }
}

/// A NumericString, which borrows its characters (X.680 section 41.2).
pub type NumericString<'a> = Leaf<'a, NumericStringKind>;

/// The kind of a PrintableString: letters, digits, spaces and `'()+,-./:=?` (X.680 section 41.4).
pub struct PrintableStringKind;

impl Tagged for PrintableStringKind {
    ghost tag_byte = { 0x13 };

    fn fixed_tag() -> Tag {
        Tag::PRINTABLE_STRING
    }
}

impl Kind for PrintableStringKind {
    ghost passes = { is_printable };

    fn test(bytes: &[u8]) -> bool {
        is_printable(bytes)
    }
}

/// A PrintableString, which borrows its characters (X.680 section 41.4).
pub type PrintableString<'a> = Leaf<'a, PrintableStringKind>;

/// The kind of a TeletexString (X.680 section 41). Any bytes are accepted: which characters they
/// stand for isn't tested.
pub struct TeletexStringKind;

impl Tagged for TeletexStringKind {
    ghost tag_byte = { 0x14 };

    fn fixed_tag() -> Tag {
        Tag::TELETEX_STRING
    }
}

impl Kind for TeletexStringKind {
    ghost passes = { λ _. true };

    fn test(_bytes: &[u8]) -> bool {
        true
    }
}

/// A TeletexString, which borrows its content, any bytes (X.680 section 41).
pub type TeletexString<'a> = Leaf<'a, TeletexStringKind>;

/// The kind of an IA5String: characters below 80 (hexadecimal) (X.680 section 41).
pub struct Ia5StringKind;

impl Tagged for Ia5StringKind {
    ghost tag_byte = { 0x16 };

    fn fixed_tag() -> Tag {
        Tag::IA5_STRING
    }
}

impl Kind for Ia5StringKind {
    ghost passes = { is_ia5 };

    fn test(bytes: &[u8]) -> bool {
        is_ia5(bytes)
    }
}

/// An IA5String, which borrows its characters (X.680 section 41).
pub type Ia5String<'a> = Leaf<'a, Ia5StringKind>;

/// The kind of a VisibleString: characters that print, and spaces (X.680 section 41).
pub struct VisibleStringKind;

impl Tagged for VisibleStringKind {
    ghost tag_byte = { 0x1A };

    fn fixed_tag() -> Tag {
        Tag::VISIBLE_STRING
    }
}

impl Kind for VisibleStringKind {
    ghost passes = { is_visible };

    fn test(bytes: &[u8]) -> bool {
        is_visible(bytes)
    }
}

/// A VisibleString, which borrows its characters (X.680 section 41).
pub type VisibleString<'a> = Leaf<'a, VisibleStringKind>;

/// The kind of a UniversalString, four bytes a character (X.690 section 8.23.7). Only the number of
/// bytes is tested, not which characters they stand for.
pub struct UniversalStringKind;

impl Tagged for UniversalStringKind {
    ghost tag_byte = { 0x1C };

    fn fixed_tag() -> Tag {
        Tag::UNIVERSAL_STRING
    }
}

impl Kind for UniversalStringKind {
    ghost passes = { λ bytes. length bytes % 4 == 0 };

    fn test(bytes: &[u8]) -> bool {
        bytes.len() % 4 == 0
    }
}

/// A UniversalString, which borrows its content, any multiple of four bytes (X.690 section 8.23.7).
pub type UniversalString<'a> = Leaf<'a, UniversalStringKind>;

/// The kind of a BMPString, two bytes a character (X.690 section 8.23.8). Only the number of bytes
/// is tested, not which characters they stand for.
pub struct BmpStringKind;

impl Tagged for BmpStringKind {
    ghost tag_byte = { 0x1E };

    fn fixed_tag() -> Tag {
        Tag::BMP_STRING
    }
}

impl Kind for BmpStringKind {
    ghost passes = { λ bytes. length bytes % 2 == 0 };

    fn test(bytes: &[u8]) -> bool {
        bytes.len() % 2 == 0
    }
}

/// A BMPString, which borrows its content, any even number of bytes (X.690 section 8.23.8).
pub type BmpString<'a> = Leaf<'a, BmpStringKind>;

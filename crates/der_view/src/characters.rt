//! The characters of a string.
ghost use Rattle.std.specs.Prelude.{◌≡◌, ◌<◌, ◌%◌, ◌+◌, [], ◌∷◌, MatchOption, length, option_map};
ghost use Rattle.std.specs.Char.Utf16.{utf16_chars};
ghost use Rattle.std.specs.Iterator.{YieldsFirst, item_count};
ghost use Rattle.der_view.specs.Characters.{are_characters, codes_of, is_utf16, string_codes};
ghost use Rattle.der_view.specs.Characters.{units_of};

use der_types::kind::{Ia5String, Kind, NumericString, PrintableString, Utf8String, VisibleString};

/// The characters of a string, from the next one on.
#[derive(Clone, Copy)]
pub enum Characters<'a> {
    /// In UTF-8 (X.690 section 8.23.10).
    Utf8(&'a str),
    /// In UTF-16, the most significant byte first (X.690 section 8.23.8), up to what is none.
    Utf16(&'a [u8]),
    /// In a byte each, as ISO 8859-1 has them.
    Latin1(&'a [u8]),
}

impl<'a> Characters<'a> {
    /// Returns the characters that the bytes stand for in ISO 8859-1.
    pub fn latin1(bytes: &'a [u8]) -> Characters<'a>
        ensures { codes_of result ≡ bytes.now }
    {
        Characters::Latin1(bytes)
    }

    /// Returns the characters of the content of a string type of X.680, given by its tag number;
    /// `None` if the type is none, or the bytes aren't characters of it.
    #[tactic(auto, using(crate::proofs::CharacterLemmas::utf8))]
    pub(crate) fn of_string(number: u32, bytes: &'a [u8]) -> Option<Characters<'a>>
        ensures { option_map codes_of result ≡ string_codes number bytes.now }
    {
        if !are_characters(number, bytes) {
            return None;
        }
        match number {
            12 => Some(Characters::Utf8(str::from_utf8(bytes).ok()?)),
            18..=22 | 25..=27 => Some(Characters::Latin1(bytes)),
            30 => Some(Characters::Utf16(bytes)),
            _ => None,
        }
    }
}

/// Returns the codes of the characters (ISO/IEC 10646).
impl Iterator for Characters<'_> {
    type Item = u32;

    ghost next_gives = { YieldsFirst codes_of };

    ghost remaining = { item_count codes_of };

    #[tactic(auto, using(crate::proofs::CharacterLemmas::first))]
    fn next(&mut self) -> Option<u32> {
        match *self {
            Characters::Utf8(text) => {
                let mut characters = text.chars();
                let first = characters.next()?;
                *self = Characters::Utf8(characters.as_str());
                Some(u32::from(first))
            }
            Characters::Utf16(bytes) => {
                let (character, rest) = split_utf16(bytes)?;
                let code = character?;
                *self = Characters::Utf16(rest);
                Some(code)
            }
            Characters::Latin1(bytes) => {
                let (code, rest) = bytes.split_first()?;
                *self = Characters::Latin1(rest);
                Some(u32::from(*code))
            }
        }
    }
}

/// Returns `true` if the bytes are characters of this string type of X.680; of TeletexString,
/// VideotexString, GraphicString, GeneralString, and of UniversalString, which isn't read here, any
/// are.
pub(crate) fn are_characters(number: u32, bytes: &[u8]) -> bool
    ensures { result ≡ are_characters number bytes.now }
{
    match number {
        12 => Utf8String::test(bytes),
        18 => NumericString::test(bytes),
        19 => PrintableString::test(bytes),
        22 => Ia5String::test(bytes),
        26 => VisibleString::test(bytes),
        30 => are_utf16(bytes),
        _ => true,
    }
}

/// Returns `true` if the bytes are characters in UTF-16.
#[tactic(auto, using(crate::proofs::CharacterLemmas::utf16))]
fn are_utf16(bytes: &[u8]) -> bool
    ensures { result ≡ is_utf16 bytes.now }
{
    let mut rest = bytes;
    while let Some((character, after)) = split_utf16(rest) {
        if character.is_none() {
            return false;
        }
        rest = after;
    }
    rest.is_empty()
}

/// Returns the first character in UTF-16 (ISO/IEC 10646 section 9.4), which is none at a surrogate
/// that has no partner, and the bytes after it; `None` if there aren't two bytes.
#[tactic(auto, using(crate::proofs::CharacterLemmas::utf16))]
fn split_utf16(bytes: &[u8]) -> Option<(Option<u32>, &[u8])>
    ensures characters { MatchOption result (units_of bytes.now ≡ [])
        (λ split. utf16_chars (units_of bytes.now) ≡ split.0 ∷ utf16_chars (units_of split.1.now)) }
    ensures parity { MatchOption result (length bytes.now < 2)
        (λ split. length bytes.now % 2 ≡ length split.1.now % 2) }
    ensures shorter { MatchOption result (length bytes.now < 2)
        (λ split. length split.1.now < length bytes.now) }
{
    let (first, after) = split_unit(bytes)?;
    if let Some((second, rest)) = split_unit(after)
        && (first >= 0xD800 && first < 0xDC00)
        && (second >= 0xDC00 && second < 0xE000)
    {
        let code = 0x1_0000 + (first - 0xD800) * 0x400 + (second - 0xDC00);
        return Some((Some(code), rest));
    }
    if first >= 0xD800 && first < 0xE000 {
        return Some((None, after));
    }
    Some((Some(first), after))
}

/// Returns the first unit of 16 bits, the most significant byte first, and the bytes after it;
/// `None` if there aren't two bytes.
fn split_unit(bytes: &[u8]) -> Option<(u32, &[u8])>
    ensures units { MatchOption result (units_of bytes.now ≡ [])
        (λ split. units_of bytes.now ≡ split.0 ∷ units_of split.1.now) }
    ensures count { MatchOption result (length bytes.now < 2)
        (λ split. length bytes.now ≡ length split.1.now + 2) }
{
    match bytes {
        [high, low, rest @ ..] => Some((0x100 * u32::from(*high) + u32::from(*low), rest)),
        _ => None,
    }
}

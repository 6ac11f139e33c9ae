//! What is shown of a content.
ghost use Rattle.std.specs.Prelude.{◌≡◌, ◌≤◌, length};
ghost use Rattle.std.specs.Char.{is_ascii_digit};
ghost use Rattle.std.specs.List.{list_all};
ghost use Rattle.der_view.specs.Contents.{is_plain, is_primitive, is_small, is_time, is_valid};
ghost use Rattle.der_view.specs.Contents.{is_whole, is_wide_text, shown_len};

use crate::grammar::Content;
use crate::header::{Class, Header, Tag};
use crate::names::split;
use der_types::kind::{Integer, Kind};

/// Returns how many of the first bytes of a content are shown: all, or none; of a point its form,
/// and before it the number of unused bits unless it is in an OCTET STRING. Of one that is cut, or
/// is elements, none are. Where this is allowed, it is shown of an element that has no component,
/// if it is small.
#[tactic(auto, unfolding(crate::specs::Contents::shown_len, crate::specs::Contents::shown_in, crate::specs::Contents::is_shown, crate::specs::Contents::has_type))]
pub(crate) fn shown_len(shows_small: bool, header: &Header, content: Content, bytes: &[u8]) -> usize
    ensures exact { result ≡ shown_len shows_small header.now content bytes.now }
    ensures within { result ≤ length bytes.now }
{
    let len = bytes.len();
    if !is_whole(header, bytes) {
        return 0;
    }
    let tag = header.tag;
    match content {
        Content::Version => len,
        Content::Of(_) => len,
        Content::Shown(most) if len <= usize::from(most) && is_valid(tag, bytes) => len,
        Content::Short(_) if is_valid(tag, bytes) => len,
        Content::Free if shows_small && is_small(tag, bytes) => len,
        Content::Point if tag.is_universal(4) => len.min(1),
        Content::Point => len.min(2),
        _ => 0,
    }
}

/// Returns `true` if a content isn't elements.
pub(crate) fn is_primitive(header: &Header) -> bool
    ensures { result ≡ is_primitive header.now }
{
    !header.tag.constructed && header.content_len.is_some()
}

/// Returns `true` if a content isn't elements, and all of it is there.
pub(crate) fn is_whole(header: &Header, bytes: &[u8]) -> bool
    ensures { result ≡ is_whole header.now bytes.now }
{
    is_primitive(header) && header.content_len == Some(bytes.len())
}

/// Returns `true` if a content is valid for its tag (X.680 section 8.4, table 1): a number in its
/// shortest form (X.690 section 8.3.2), a string with no control character, a time in the form of
/// DER (X.690 section 11.7). One of an UniversalString isn't.
#[tactic(auto, unfolding(crate::specs::Contents::is_valid, crate::specs::Contents::is_number, crate::specs::Contents::is_string, crate::specs::Contents::has_type))]
fn is_valid(tag: Tag, bytes: &[u8]) -> bool
    ensures { result ≡ is_valid tag bytes.now }
{
    let Class::Universal = tag.class else {
        return true;
    };
    match tag.number {
        2 | 10 => Integer::test(bytes),
        12 | 18 | 19 | 20 | 21 | 22 | 25 | 26 | 27 => is_text(bytes),
        23 => is_time(12, bytes),
        24 => is_time(14, bytes),
        28 => false,
        30 => is_wide_text(bytes),
        _ => true,
    }
}

/// Returns `true` if a byte is no control character.
fn is_plain(byte: u8) -> bool
    ensures { result ≡ is_plain byte }
{
    byte >= 0x20 && byte != 0x7F
}

/// Returns `true` if no byte is a control character.
fn is_text(bytes: &[u8]) -> bool
    ensures { result ≡ list_all is_plain bytes.now }
{
    bytes.iter().all(|byte| is_plain(*byte))
}

/// Returns `true` if these are characters of two bytes, none of them a control character.
fn is_wide_text(bytes: &[u8]) -> bool
    ensures { result ≡ is_wide_text bytes.now }
{
    let mut bytes = bytes;
    while let [high, low, rest @ ..] = bytes {
        if *high == 0x00 && !is_plain(*low) {
            return false;
        }
        bytes = rest;
    }
    bytes.is_empty()
}

/// Returns `true` if these are so many digits, and a `Z` after them.
fn is_time(count: usize, bytes: &[u8]) -> bool
    ensures { result ≡ is_time count bytes.now }
{
    let (digits, end) = split(bytes, count);
    are_digits(digits) && end.len() == 1 && end[0] == b'Z'
}

/// Returns `true` if these are digits.
fn are_digits(bytes: &[u8]) -> bool
    ensures { result ≡ list_all is_ascii_digit bytes.now }
{
    bytes.iter().all(|byte| byte.is_ascii_digit())
}

/// Returns `true` if a content is shown of an element that has no component: a BOOLEAN, an INTEGER,
/// an ENUMERATED or a NULL of at most 8 bytes, or an OBJECT IDENTIFIER of at most 12.
#[tactic(auto, unfolding(crate::specs::Contents::is_small, crate::specs::Contents::is_number, crate::specs::Contents::has_type))]
fn is_small(tag: Tag, bytes: &[u8]) -> bool
    ensures { result ≡ is_small tag bytes.now }
{
    let Class::Universal = tag.class else {
        return false;
    };
    match tag.number {
        1 => bytes.len() == 1,
        2 | 10 => bytes.len() <= 8 && Integer::test(bytes),
        5 => bytes.is_empty(),
        6 => bytes.len() <= 12,
        _ => false,
    }
}

//! What is shown of the content of a primitive element.
ghost use Rattle.std.specs.Prelude.{◌≡◌, ◌≤◌, length, option_map};
ghost use Rattle.der_view.specs.Characters.{string_codes};
ghost use Rattle.der_view.specs.Values.{String, bits_value, boolean_value, integer_text};
ghost use Rattle.der_view.specs.Values.{time_value, universal_value, value_by, value_view};

mod arcs;
mod text;

use crate::characters::Characters;
use crate::header::{Class, Tag};
use crate::names::{magnitude, name_of, split};
pub use arcs::Arcs;
use arrayvec::ArrayString;
use der_types::kind::{GeneralizedTime, Kind, UtcTime, VisibleString};
use itoa::Buffer;

/// A short text.
pub type ShortText = ArrayString<40>;

/// What is shown of the content of a primitive element.
#[derive(Drop)]
pub enum Value<'a> {
    /// Nothing: a NULL.
    Nothing,
    /// The number of bytes alone.
    Count(usize),
    /// The number of bytes of a BIT STRING, and how many bits of the last one are unused.
    Bits {
        /// The number of bytes.
        count: usize,
        /// The number of unused bits.
        unused: u8,
    },
    /// A short text: `TRUE`, a number, some bits.
    Text(ShortText),
    /// A time to the second, such as `2026-01-02 03:04:05`, and what follows it: the fraction of a
    /// second, if there is one, and `Z`.
    Time([u8; 19], &'a [u8]),
    /// An identifier (X.690 section 8.19): its name, if it has one, and its arcs.
    Identifier(Option<&'static [u8]>, Arcs<'a>),
    /// The characters of a string.
    String(Characters<'a>),
}

/// Returns what is shown of the content of a primitive element with this tag.
pub fn value_of<'a>(tag: Tag, content: &'a [u8]) -> Value<'a>
    ensures { value_view result ≡ value_by tag content.now }
{
    let value = match tag.class {
        Class::Universal => universal_value(tag.number, content),
        // A field of another type: its characters, if it has some and all print.
        _ if !content.is_empty() && VisibleString::test(content) => {
            Some(Value::String(Characters::latin1(content)))
        }
        _ => None,
    };
    match value {
        Some(value) => value,
        None => Value::Count(content.len()),
    }
}

/// Returns what is shown of the content of a type of X.680; `None` if it is the number of bytes
/// alone.
#[tactic(auto, using(crate::proofs::ValueLemmas::values))]
fn universal_value<'a>(number: u32, content: &'a [u8]) -> Option<Value<'a>>
    ensures { option_map value_view result ≡ universal_value number content.now }
{
    match number {
        1 => boolean(content),
        2 | 10 => Some(Value::Text(integer(content)?)),
        3 => bits(content),
        5 if content.is_empty() => Some(Value::Nothing),
        6 => Some(Value::Identifier(name_of(content), Arcs::new(content)?)),
        // The years from 50 on are in the twentieth century (RFC 5280 section 4.1.2.5.1).
        23 if UtcTime::test(content) && content[0] >= b'5' => Some(time(b"19", content)),
        23 if UtcTime::test(content) => Some(time(b"20", content)),
        24 if GeneralizedTime::test(content) => Some(time(&content[..2], split(content, 2).1)),
        _ => string(number, content),
    }
}

/// Returns what is shown of a BOOLEAN: one byte, in BER (X.690 section 8.2).
fn boolean<'a>(content: &'a [u8]) -> Option<Value<'a>>
    ensures { option_map value_view result ≡ boolean_value content.now }
{
    match content {
        [0] => Some(Value::Text(short("FALSE"))),
        [_] => Some(Value::Text(short("TRUE"))),
        _ => None,
    }
}

/// Returns a short text.
fn short(text: &str) -> ShortText
    requires { length text.now ≤ 40 }
    ensures { result.bytes ≡ text.now }
{
    let mut short = ShortText::new();
    short.push_str(text);
    short
}

/// Returns a number in two's complement (X.690 section 8.3.3) in decimal digits; `None` if it has
/// no byte, or more than eight.
#[tactic(auto, using(crate::proofs::ValueLemmas::integers))]
fn integer(content: &[u8]) -> Option<ShortText>
    ensures { option_map (λ text. text.bytes) result ≡ integer_text content.now }
{
    if content.is_empty() || content.len() > 8 {
        return None;
    }
    let (number, end) = magnitude(content);
    if content[0] < 0x80 {
        return Some(short(Buffer::new().format(number)));
    }
    let mut text = short("-");
    text.push_str(Buffer::new().format(end - number));
    Some(text)
}

/// Returns what is shown of a BIT STRING (X.690 section 8.6.2): its bits, the first one first, if
/// they are in one to three bytes.
fn bits<'a>(content: &'a [u8]) -> Option<Value<'a>>
    ensures { option_map value_view result ≡ bits_value content.now }
{
    let (unused, bytes) = content.split_first()?;
    let (count, unused) = (bytes.len(), *unused);
    if unused > 7 || count == 0 || count > 3 {
        return Some(Value::Bits { count, unused });
    }
    let mut text = ShortText::new();
    for place in 0..8 * count - usize::from(unused) {
        let is_set = (bytes[place / 8] >> (7 - place % 8)) % 2 == 1;
        text.push_str(if is_set { "1" } else { "0" });
    }
    Some(Value::Text(text))
}

/// Returns the characters of a string of this type; `None` of another type.
fn string<'a>(number: u32, content: &'a [u8]) -> Option<Value<'a>>
    ensures { option_map value_view result
        ≡ option_map String (string_codes number content.now) }
{
    Some(Value::String(Characters::of_string(number, content)?))
}

/// Returns a time to the second, and what follows it, from the first two digits of the year and
/// what comes after them.
fn time<'a>(century: &[u8], rest: &'a [u8]) -> Value<'a>
    requires two { 2 ≤ length century.now }
    requires twelve { 12 ≤ length rest.now }
    ensures { value_view result ≡ time_value century.now rest.now }
{
    let time = [
        century[0], century[1], rest[0], rest[1], b'-', rest[2], rest[3], b'-', rest[4], rest[5],
        b' ', rest[6], rest[7], b':', rest[8], rest[9], b':', rest[10], rest[11],
    ];
    Value::Time(time, split(rest, 12).1)
}

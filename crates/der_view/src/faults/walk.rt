//! The walk along components, up to the first fault.
ghost use Rattle.std.specs.Prelude.{◌≡◌, ◌≤◌, ◌<◌, ◌+◌, length, Some, None, Ok, Err, MatchResult};
ghost use Rattle.std.specs.Prelude.{IfOk};
ghost use Rattle.der_view.specs.FaultPlaces.{after, at_end, at_first, before, comes};
ghost use Rattle.der_view.specs.FaultPlaces.{content_place, element_at, fits, level_place};
ghost use Rattle.der_view.specs.FaultPlaces.{own_place};
ghost use Rattle.sec1_der.specs.Elements.{max_length};
ghost use Rattle.sec1_der.specs.Faults.{SaysKinds};

use super::Position;
use super::table::{Component, Rule, inside_of};
use crate::grammar::Presence;
use der_types::{Bits, GeneralizedTime, Integer, ObjectIdentifierRef, SetOf, Unsigned, UtcTime};
use pkix::{Attribute, LaterVersion, RelativeDistinguishedName};
use sec1_der::{
    AnyRef, DecodeValue, ErrorKind, IdentifierRef, SliceReader, SmallInteger, Tag, WholeBits,
};

/// The result of a step, or the place at which the bytes are refused.
type Step<T> = std::result::Result<T, Position>;

/// Checks that the bytes, which end at this offset, are these components, with at most so many
/// levels; or returns the first fault from left to right.
#[cycle(check)]
pub(super) fn check(levels: usize, components: &[Component], end: usize, bytes: &[u8]) -> Step<()>
    requires { length bytes.now ≤ end }
    ensures { MatchResult result (λ _. level_place levels components.now end bytes.now ≡ None)
        (λ fault. level_place levels components.now end bytes.now ≡ Some fault) }
{
    if levels == 0 {
        return finish(end, bytes, ErrorKind::Depth);
    }
    let mut components = components;
    let mut rest = bytes;
    while let [component, others @ ..] = components {
        let (expected, presence, rule) = *component;
        if comes(presence, expected, rest) {
            let (tag, content, left) = first_element(expected, end, rest)?;
            check_content(levels - 1, rule, tag, end - left.len(), content)?;
            components = after(presence, components, others);
            rest = left;
        } else {
            components = others;
        }
    }
    finish(end, rest, ErrorKind::TrailingData)
}

/// Checks a content, which ends at this offset: its components, and then the whole of it.
#[cycle(check)]
fn check_content(levels: usize, rule: Rule, tag: u8, end: usize, content: &[u8]) -> Step<()>
    requires end { length content.now ≤ end }
    requires limit { length content.now ≤ max_length }
    ensures { MatchResult result
        (λ _. content_place (level_place levels) rule tag end content.now ≡ None)
        (λ fault. content_place (level_place levels) rule tag end content.now ≡ Some fault) }
{
    if let Some(row) = inside_of(rule, tag, content) {
        check(levels, row, end, content)?;
    }
    check_own(rule, tag, end, content)
}

/// Checks a content, which ends at this offset, as a whole: its components have been checked. It is
/// refused at its first byte, or at that of a BIT STRING with unused bits.
// Its part of the stack isn't one of each level.
#[inline(never)]
#[tactic(auto, using(crate::proofs::FaultLemmas::says))]
fn check_own(rule: Rule, tag: u8, end: usize, content: &[u8]) -> Step<()>
    requires end { length content.now ≤ end }
    requires limit { length content.now ≤ max_length }
    ensures { MatchResult result (λ _. own_place rule tag end content.now ≡ None)
        (λ fault. own_place rule tag end content.now ≡ Some fault) }
{
    match rule {
        Rule::Zero => decoded::<SmallInteger<0>>(end, content),
        Rule::One => decoded::<SmallInteger<1>>(end, content),
        Rule::LaterVersion => decoded::<LaterVersion>(end, content),
        Rule::Integer => decoded::<Integer>(end, content),
        Rule::Unsigned => decoded::<Unsigned>(end, content),
        Rule::True => match content {
            [0xFF] => Ok(()),
            _ => Err(before(end, content, ErrorKind::Value)),
        },
        Rule::Bits => decoded::<Bits>(end, content),
        Rule::Identifier => decoded::<ObjectIdentifierRef>(end, content),
        Rule::CurveName => decoded::<IdentifierRef>(end, content),
        Rule::Time if tag == 0x17 => decoded::<UtcTime>(end, content),
        Rule::Time => decoded::<GeneralizedTime>(end, content),
        Rule::Point => {
            let (_, bits, left) = first_element(0x03, end, content)?;
            decoded::<WholeBits>(end - left.len(), bits)
        }
        Rule::RelativeName => decoded::<RelativeDistinguishedName>(end, content),
        Rule::KeyAttributes => decoded::<SetOf<Attribute>>(end, content),
        _ => Ok(()),
    }
}

/// Checks that a content is one of a value of T, whose rule says the kinds of its errors. It is
/// refused by this kind at its first byte.
fn decoded<'a, T: DecodeValue<'a> + Drop>(end: usize, content: &'a [u8]) -> Step<()>
    requires says { SaysKinds T.fault }
    requires end { length content.now ≤ end }
    requires limit { length content.now ≤ max_length }
    ensures { MatchResult result (λ _. at_first T.fault end content.now ≡ None)
        (λ fault. at_first T.fault end content.now ≡ Some fault) }
{
    match T::decode_value(&mut SliceReader::new(content)) {
        Ok(_) => Ok(()),
        Err(e) => Err(before(end, content, e.kind)),
    }
}

/// Returns the tag and the content of the element with this tag that the bytes begin with, and the
/// bytes after it; or Truncated, Tag or Length if they begin with none.
#[tactic(auto, using(crate::proofs::FaultLemmas::elements))]
fn first_element(expected: u8, end: usize, bytes: &[u8]) -> Step<(u8, &[u8], &[u8])>
    requires { length bytes.now ≤ end }
    ensures found { MatchResult result
        (λ x. element_at expected end bytes.now ≡ Ok (x.0, x.1.now, x.2.now))
        (λ fault. element_at expected end bytes.now ≡ Err fault) }
    ensures within { IfOk result
        (λ x. (length x.1.now + length x.2.now < length bytes.now)
        × (length x.1.now ≤ max_length)) }
{
    let Some((first, rest)) = bytes.split_first() else {
        return Err(before(end, bytes, ErrorKind::Truncated));
    };
    if !fits(expected, *first) {
        return Err(before(end, bytes, ErrorKind::Tag));
    }
    match AnyRef::split(bytes) {
        Ok((any, left)) => Ok((any.tag().byte(), any.value(), left)),
        Err(e) => Err(before(end, rest, e.kind)),
    }
}

/// Returns `true` if an element with this tag comes, or has to.
fn comes(presence: Presence, expected: u8, bytes: &[u8]) -> bool
    ensures { result ≡ comes presence expected bytes.now }
{
    match (presence, bytes.first()) {
        (Presence::Needed, _) => true,
        (_, None) => false,
        (Presence::Optional, Some(tag)) => fits(expected, *tag),
        (Presence::Many, Some(_)) => true,
    }
}

/// Returns `true` if an element may have this tag.
fn fits(expected: u8, tag: u8) -> bool
    ensures { result ≡ fits expected tag }
{
    match expected {
        0x00 => Tag::from_byte(tag).is_ok(),
        0x17 => tag == 0x17 || tag == 0x18,
        _ => Tag::from_byte(expected).is_ok() && tag == expected,
    }
}

/// Borrows the components that may come after one: it and the others again, or the others.
fn after<'a>(presence: Presence, again: &'a [Component], others: &'a [Component]) -> &'a [Component]
    ensures exact { result.now ≡ after presence again.now others.now }
    ensures within { length others.now ≤ length again.now
        → length result.now ≤ length again.now }
{
    match presence {
        Presence::Needed | Presence::Optional => others,
        Presence::Many => again,
    }
}

/// Checks that there are no bytes; or returns this kind at the first one.
fn finish(end: usize, bytes: &[u8], kind: ErrorKind) -> Step<()>
    requires { length bytes.now ≤ end }
    ensures { MatchResult result (λ _. at_end kind end bytes.now ≡ None)
        (λ fault. at_end kind end bytes.now ≡ Some fault) }
{
    if bytes.is_empty() {
        Ok(())
    } else {
        Err(before(end, bytes, kind))
    }
}

/// Returns the fault of this kind before as many bytes as are left.
fn before(end: usize, left: &[u8], kind: ErrorKind) -> Position
    requires { length left.now ≤ end }
    ensures { result ≡ before end left.now kind }
{
    Position {
        offset: end - left.len(),
        kind,
    }
}

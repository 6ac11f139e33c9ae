//! Which rules of X.690 a header or a content doesn't keep.
ghost use Rattle.std.specs.Prelude.{◌≡◌};
ghost use Rattle.der_view.specs.Marks.{bits_fault, content_fault, fault_unless};
ghost use Rattle.der_view.specs.Marks.{length_fault, string_fault, tag_fault};

use super::{Fault, Mark};
use crate::characters::are_characters;
use crate::header::{Class, Tag};
use der_types::kind::{GeneralizedTime, Kind, ObjectIdentifier, UtcTime};

/// Returns what is wrong with a tag of this number, with which these bytes begin (X.690 section
/// 8.1.2).
pub(crate) fn tag_fault(head: &[u8], number: u32) -> Option<Mark>
    ensures { result ≡ tag_fault head.now number }
{
    match head {
        [first, 0x80, ..] if *first % 0x20 == 0x1F => Some(Mark::Fault(Fault::PaddedTag)),
        [first, ..] if *first % 0x20 == 0x1F && number < 31 => Some(Mark::Fault(Fault::LowTag)),
        _ => None,
    }
}

/// Returns what is wrong with this length of a content, which is of so many bytes (X.690 section
/// 10.1).
pub(crate) fn length_fault(content_len: Option<usize>, len: usize) -> Option<Mark>
    ensures { result ≡ length_fault content_len len }
{
    let Some(content_len) = content_len else {
        return Some(Mark::Fault(Fault::Indefinite));
    };
    // the shortest form of a length (X.690 section 8.1.3)
    let shortest = match content_len {
        0..0x80 => 1,
        0x80..0x100 => 2,
        0x100..0x1_0000 => 3,
        _ => 4,
    };
    fault_unless(len <= shortest, Fault::Length)
}

/// Returns what is wrong with a tag if it is a constructed string's (X.690 section 10.2).
pub(crate) fn string_fault(tag: Tag) -> Option<Mark>
    ensures { result ≡ string_fault tag }
{
    let is_string = matches!(
        (tag.class, tag.number),
        (Class::Universal, 3 | 4 | 12 | 18..=28 | 30)
    );
    fault_unless(!(tag.constructed && is_string), Fault::ConstructedString)
}

/// Returns what is wrong with the content of a primitive element whose tag is that of the type of
/// X.680 with this number; `None` if nothing is.
pub(crate) fn content_fault(number: u32, content: &[u8]) -> Option<Mark>
    ensures { result ≡ content_fault number content.now }
{
    match number {
        1 => match content {
            [byte] => fault_unless(*byte == 0x00 || *byte == 0xFF, Fault::TrueIsFf),
            _ => Some(Mark::Fault(Fault::BooleanLength)),
        },
        2 | 10 => fault_unless(!content.is_empty(), Fault::EmptyInteger),
        3 => bits_fault(content),
        5 => fault_unless(content.is_empty(), Fault::NullContent),
        6 => fault_unless(ObjectIdentifier::test(content), Fault::NoIdentifier),
        23 => fault_unless(UtcTime::test(content), Fault::UtcTime),
        24 => fault_unless(GeneralizedTime::test(content), Fault::GeneralizedTime),
        _ => (!are_characters(number, content)).then_some(Mark::Characters(number)),
    }
}

/// Returns a fault, unless something is as it has to be.
fn fault_unless(passes: bool, fault: Fault) -> Option<Mark>
    ensures { result ≡ fault_unless passes fault }
{
    (!passes).then_some(Mark::Fault(fault))
}

/// Returns what is wrong with the content of a BIT STRING: the number of unused bits in its last
/// byte, and the bytes.
fn bits_fault(content: &[u8]) -> Option<Mark>
    ensures { result ≡ bits_fault content.now }
{
    let [unused, bytes @ ..] = content else {
        return Some(Mark::Fault(Fault::EmptyBitString));
    };
    let unused = *unused;
    if unused > 7 {
        Some(Mark::Fault(Fault::UnusedAboveSeven))
    } else if bytes.is_empty() {
        fault_unless(unused == 0, Fault::UnusedInEmpty)
    } else {
        let last = bytes[bytes.len() - 1];
        fault_unless(last % (1 << unused) == 0, Fault::UnusedNotZero)
    }
}

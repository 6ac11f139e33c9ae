//! SET OF: elements in order, out of order and of unequal lengths.
ghost use Rattle.std.specs.Prelude.{◌≡◌, ◌==◌, ◌∷◌, [], length, Some, true};
ghost use Rattle.sec1_der.specs.Contents.{value_unless};

use crate::assert_equal;
use der_types::SetOf;
use sec1_der::{
    DecodeValue, ErrorKind, OctetStringRef, Result, SliceReader, Tag, Tagged, ValueContent,
};
use std::test::Fail;

/// An INTEGER whose content is one byte.
#[derive(Drop)]
struct Digit {
    byte: u8,
}

impl Tagged for Digit {
    ghost tag_byte = { 0x02 };

    fn fixed_tag() -> Tag
        ensures { result ≡ 0x02 }
    {
        Tag::INTEGER
    }
}

impl ValueContent for Digit {
    ghost content = { λ digit. Some (digit.byte ∷ []) };

    ghost fault = { λ bytes. value_unless (length bytes == 1) };
}

impl<'a> DecodeValue<'a> for Digit {
    fn decode_value(reader: &mut SliceReader<'a>) -> Result<Self> {
        match reader.read_rest()? {
            [byte] => Ok(Digit { byte: *byte }),
            _ => Err(reader.fail(ErrorKind::Value)),
        }
    }
}

/// Returns the kind of the error by which bytes are refused as a SET OF.
fn refusal<'a, T: DecodeValue<'a> + Tagged + Drop>(bytes: &'a [u8]) -> Option<ErrorKind> {
    SetOf::<T>::new(bytes).err().map(|e| e.kind())
}

#[test]
fn tests_the_order_of_integers(rt: HostRuntime) {
    assert_equal(
        &rt,
        &refusal::<Digit>(&[0x02, 0x01, 0x05, 0x02, 0x01, 0x07]),
        &None,
    );
    assert_equal(
        &rt,
        &refusal::<Digit>(&[0x02, 0x01, 0x07, 0x02, 0x01, 0x05]),
        &Some(ErrorKind::Value),
    );
    assert_equal(
        &rt,
        &refusal::<Digit>(&[0x02, 0x01, 0x05, 0x02, 0x01, 0x05]),
        &None,
    );
    assert_equal(
        &rt,
        &refusal::<Digit>(&[0x02, 0x02, 0x00, 0x05]),
        &Some(ErrorKind::Value),
    );
    assert_equal(&rt, &refusal::<Digit>(&[]), &None);
}

#[test]
fn tests_the_order_of_unequal_lengths(rt: HostRuntime) {
    let ascending = [0x04, 0x01, 0x61, 0x04, 0x02, 0x61, 0x00];
    assert_equal(&rt, &refusal::<OctetStringRef>(&ascending), &None);
    let descending = [0x04, 0x02, 0x61, 0x00, 0x04, 0x01, 0x61];
    assert_equal(
        &rt,
        &refusal::<OctetStringRef>(&descending),
        &Some(ErrorKind::Value),
    );
}

#[test]
fn returns_the_elements(rt: HostRuntime) -> std::result::Result<(), Fail> {
    let set = SetOf::<Digit>::new(&[0x02, 0x01, 0x05, 0x02, 0x01, 0x07])?;
    assert_equal(&rt, &set.reborrow().as_bytes().len(), &6);
    let mut elements = set.elements();
    assert_equal(&rt, &elements.next().map(|digit| digit.byte), &Some(5));
    assert_equal(&rt, &elements.next().map(|digit| digit.byte), &Some(7));
    assert!(rt; elements.next().is_none());
    Ok(())
}

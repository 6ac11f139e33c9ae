//! Records of many parts, and records in records in records.
ghost use Rattle.std.specs.Prelude.{◌≡◌, ℕ, List, refl};
ghost use Rattle.sec1_der.specs.Elements.{element_of};
ghost use Rattle.sec1_der.specs.Parts.{AreDistinct, one_tag};
ghost use Rattle.sec1_der.specs.PartLaws.{element_begins};
ghost use Rattle.sec1_der.specs.Faults.{element_fault};
ghost use Rattle.sec1_tests.specs.Nested.{Four, inner_content, inner_fault};
ghost use Rattle.sec1_tests.specs.Nested.{middle_content, middle_fault};

use crate::der::records::identifier;
use crate::helpers::{assert_equal, read_and_write};
use sec1_der::{
    BackWriter, DecodePart, Distinct, EncodePart, Length, ObjectIdentifier, Optional, Part, Record,
    Required, Result, SliceReader, UniquePart, VersionOne, component_len, decode_component,
};
use std::marker::Model;
use std::process::Abort;

/// Four parts: two identifiers, and a version after each that may be absent.
type Row = (
    (Required<ObjectIdentifier>, Optional<VersionOne>),
    (Required<ObjectIdentifier>, Optional<VersionOne>),
);

/// Sixteen parts.
#[derive(Clone, Copy)]
struct Wide {
    first: Row,
    second: Row,
    third: Row,
    fourth: Row,
}

impl Record for Wide {
    type Parts = ((Row, Row), (Row, Row));

    ghost parts = { λ wide. ((wide.first, wide.second), (wide.third, wide.fourth)) };

    ghost of_parts = { λ pairs.
        record { first = pairs.0.0; second = pairs.0.1; third = pairs.1.0; fourth = pairs.1.1 } };

    fn from_parts(pairs: Self::Parts) -> Self {
        let ((first, second), (third, fourth)) = pairs;
        Wide {
            first,
            second,
            third,
            fourth,
        }
    }

    fn to_parts(&self) -> Self::Parts {
        ((self.first, self.second), (self.third, self.fourth))
    }

    ghost same = { λ _. refl };
}

impl Distinct for Wide {
    ghost distinct = { refl };
}

/// Four identifiers.
#[derive(Drop)]
struct Inner {
    first: ObjectIdentifier,
    second: ObjectIdentifier,
    third: ObjectIdentifier,
    fourth: ObjectIdentifier,
}

/// Four [`Inner`].
#[derive(Drop)]
struct Middle {
    first: Inner,
    second: Inner,
    third: Inner,
    fourth: Inner,
}

/// Four [`Middle`].
#[derive(Drop)]
struct Outer {
    first: Middle,
    second: Middle,
    third: Middle,
    fourth: Middle,
}

impl Model for Inner {
    ghost Value = { Four (List ℕ) };

    ghost view = { λ four. ((four.first, four.second), (four.third, four.fourth)) };
}

impl Record for Inner {
    type Parts = (
        (Required<ObjectIdentifier>, Required<ObjectIdentifier>),
        (Required<ObjectIdentifier>, Required<ObjectIdentifier>),
    );

    ghost parts = { λ four. four };

    ghost of_parts = { λ pairs. pairs };

    fn from_parts(pairs: Self::Parts) -> Self {
        let ((Required(first), Required(second)), (Required(third), Required(fourth))) = pairs;
        Inner {
            first,
            second,
            third,
            fourth,
        }
    }

    fn to_parts(&self) -> Self::Parts {
        (
            (Required(self.first), Required(self.second)),
            (Required(self.third), Required(self.fourth)),
        )
    }

    ghost same = { λ _. refl };
}

impl Distinct for Inner {
    ghost distinct = { refl };
}

impl Part for Inner {
    ghost bytes = { λ four. element_of 0x30 (inner_content four) };

    ghost and_then = { element_fault 0x30 inner_fault };

    ghost tags = { one_tag 0x30 };

    ghost begins = { λ four. element_begins 0x30 (inner_content four) };
}

impl EncodePart for Inner {
    fn part_len(&self) -> Result<Length> {
        component_len(self)
    }

    fn prepend_part(&self, writer: &mut BackWriter) {
        writer.prepend_element(self);
    }
}

impl<'a> DecodePart<'a> for Inner {
    fn decode_part(reader: &mut SliceReader<'a>) -> Result<Self> {
        decode_component(reader)
    }
}

impl UniquePart for Inner {
    fn bytes_injective()
        ensures { AreDistinct (one_tag 0x30) (λ four. element_of 0x30 (inner_content four)) }
    {
        Required::<Inner>::bytes_injective();
    }
}

impl Model for Middle {
    ghost Value = { Four (Four (List ℕ)) };

    ghost view = { λ four. ((four.first, four.second), (four.third, four.fourth)) };
}

impl Record for Middle {
    type Parts = ((Inner, Inner), (Inner, Inner));

    ghost parts = { λ four. four };

    ghost of_parts = { λ pairs. pairs };

    fn from_parts(pairs: Self::Parts) -> Self {
        let ((first, second), (third, fourth)) = pairs;
        Middle {
            first,
            second,
            third,
            fourth,
        }
    }

    fn to_parts(&self) -> Self::Parts {
        (
            (self.first.reborrow(), self.second.reborrow()),
            (self.third.reborrow(), self.fourth.reborrow()),
        )
    }

    ghost same = { λ _. refl };
}

impl Distinct for Middle {
    ghost distinct = { refl };
}

impl Part for Middle {
    ghost bytes = { λ four. element_of 0x30 (middle_content four) };

    ghost and_then = { element_fault 0x30 middle_fault };

    ghost tags = { one_tag 0x30 };

    ghost begins = { λ four. element_begins 0x30 (middle_content four) };
}

impl EncodePart for Middle {
    fn part_len(&self) -> Result<Length> {
        component_len(self)
    }

    fn prepend_part(&self, writer: &mut BackWriter) {
        writer.prepend_element(self);
    }
}

impl<'a> DecodePart<'a> for Middle {
    fn decode_part(reader: &mut SliceReader<'a>) -> Result<Self> {
        decode_component(reader)
    }
}

impl UniquePart for Middle {
    fn bytes_injective()
        ensures { AreDistinct (one_tag 0x30) (λ four. element_of 0x30 (middle_content four)) }
    {
        Required::<Middle>::bytes_injective();
    }
}

impl Model for Outer {
    ghost Value = { Four (Four (Four (List ℕ))) };

    ghost view = { λ four. ((four.first, four.second), (four.third, four.fourth)) };
}

impl Record for Outer {
    type Parts = ((Middle, Middle), (Middle, Middle));

    ghost parts = { λ four. four };

    ghost of_parts = { λ pairs. pairs };

    fn from_parts(pairs: Self::Parts) -> Self {
        let ((first, second), (third, fourth)) = pairs;
        Outer {
            first,
            second,
            third,
            fourth,
        }
    }

    fn to_parts(&self) -> Self::Parts {
        (
            (self.first.reborrow(), self.second.reborrow()),
            (self.third.reborrow(), self.fourth.reborrow()),
        )
    }

    ghost same = { λ _. refl };
}

impl Distinct for Outer {
    ghost distinct = { refl };
}

/// A [`Wide`]: four rows of the identifiers 0.7 and 0.8, the second with a version.
static WIDE: [u8; 38] = [
    0x30, 0x24, 0x06, 0x01, 0x07, 0x06, 0x01, 0x08, 0x02, 0x01, 0x01, 0x06, 0x01, 0x07, 0x06, 0x01,
    0x08, 0x02, 0x01, 0x01, 0x06, 0x01, 0x07, 0x06, 0x01, 0x08, 0x02, 0x01, 0x01, 0x06, 0x01, 0x07,
    0x06, 0x01, 0x08, 0x02, 0x01, 0x01,
];

/// Reads and writes a [`Wide`], and returns its last row.
fn read_wide<R: Abort + AllocGlobal>(rt: &R, bytes: &[u8]) -> Result<Row> {
    let wide: Wide = read_and_write(rt, rt.alloc(), bytes)?;
    Ok(wide.fourth)
}

#[test]
fn reads_and_writes_a_record_of_16_parts(rt: HostRuntime) {
    let absent = (Required(identifier(&rt, 7)), Optional(None));
    let present = (Required(identifier(&rt, 8)), Optional(Some(VersionOne)));
    assert_equal(&rt, &read_wide(&rt, &WIDE), &Ok((absent, present)));
}

/// An [`Outer`]: sixteen [`Inner`] of the identifiers 0.7 to 0.10.
static OUTER: [u8; 235] = [
    0x30, 0x81, 0xE8, 0x30, 0x38, 0x30, 0x0C, 0x06, 0x01, 0x07, 0x06, 0x01, 0x08, 0x06, 0x01, 0x09,
    0x06, 0x01, 0x0A, 0x30, 0x0C, 0x06, 0x01, 0x07, 0x06, 0x01, 0x08, 0x06, 0x01, 0x09, 0x06, 0x01,
    0x0A, 0x30, 0x0C, 0x06, 0x01, 0x07, 0x06, 0x01, 0x08, 0x06, 0x01, 0x09, 0x06, 0x01, 0x0A, 0x30,
    0x0C, 0x06, 0x01, 0x07, 0x06, 0x01, 0x08, 0x06, 0x01, 0x09, 0x06, 0x01, 0x0A, 0x30, 0x38, 0x30,
    0x0C, 0x06, 0x01, 0x07, 0x06, 0x01, 0x08, 0x06, 0x01, 0x09, 0x06, 0x01, 0x0A, 0x30, 0x0C, 0x06,
    0x01, 0x07, 0x06, 0x01, 0x08, 0x06, 0x01, 0x09, 0x06, 0x01, 0x0A, 0x30, 0x0C, 0x06, 0x01, 0x07,
    0x06, 0x01, 0x08, 0x06, 0x01, 0x09, 0x06, 0x01, 0x0A, 0x30, 0x0C, 0x06, 0x01, 0x07, 0x06, 0x01,
    0x08, 0x06, 0x01, 0x09, 0x06, 0x01, 0x0A, 0x30, 0x38, 0x30, 0x0C, 0x06, 0x01, 0x07, 0x06, 0x01,
    0x08, 0x06, 0x01, 0x09, 0x06, 0x01, 0x0A, 0x30, 0x0C, 0x06, 0x01, 0x07, 0x06, 0x01, 0x08, 0x06,
    0x01, 0x09, 0x06, 0x01, 0x0A, 0x30, 0x0C, 0x06, 0x01, 0x07, 0x06, 0x01, 0x08, 0x06, 0x01, 0x09,
    0x06, 0x01, 0x0A, 0x30, 0x0C, 0x06, 0x01, 0x07, 0x06, 0x01, 0x08, 0x06, 0x01, 0x09, 0x06, 0x01,
    0x0A, 0x30, 0x38, 0x30, 0x0C, 0x06, 0x01, 0x07, 0x06, 0x01, 0x08, 0x06, 0x01, 0x09, 0x06, 0x01,
    0x0A, 0x30, 0x0C, 0x06, 0x01, 0x07, 0x06, 0x01, 0x08, 0x06, 0x01, 0x09, 0x06, 0x01, 0x0A, 0x30,
    0x0C, 0x06, 0x01, 0x07, 0x06, 0x01, 0x08, 0x06, 0x01, 0x09, 0x06, 0x01, 0x0A, 0x30, 0x0C, 0x06,
    0x01, 0x07, 0x06, 0x01, 0x08, 0x06, 0x01, 0x09, 0x06, 0x01, 0x0A,
];

/// Reads and writes an [`Outer`], and returns one of its last identifiers.
fn read_outer<R: Abort + AllocGlobal>(rt: &R, bytes: &[u8]) -> Result<ObjectIdentifier> {
    let outer: Outer = read_and_write(rt, rt.alloc(), bytes)?;
    Ok(outer.third.second.fourth)
}

#[test]
fn reads_and_writes_64_identifiers_in_21_records(rt: HostRuntime) {
    assert_equal(&rt, &read_outer(&rt, &OUTER), &Ok(identifier(&rt, 0x0A)));
}

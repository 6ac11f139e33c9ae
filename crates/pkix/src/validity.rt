//! The time in which a certificate is valid.
ghost use Rattle.std.specs.Prelude.{◌≡◌, refl};
ghost use Rattle.sec1_der.specs.Elements.{element_of};
ghost use Rattle.sec1_der.specs.Parts.{AreDistinct, one_tag};
ghost use Rattle.sec1_der.specs.PartLaws.{element_begins};
ghost use Rattle.sec1_der.specs.Faults.{element_fault};
ghost use Rattle.pkix.specs.Records.{validity_content, validity_fault};

use crate::in_place::{ReadInPlace, read_part, read_record};
use der_types::{Choice, GeneralizedTime, UtcTime};
use sec1_der::{
    BackWriter, DecodePart, Distinct, EncodePart, Length, Part, Record, Required, Result,
    SliceReader, UniquePart, component_len, known_encoded_len,
};

/// A Time (RFC 5280 section 4.1).
pub type Time<'a> = Choice<Required<UtcTime<'a>>, Required<GeneralizedTime<'a>>>;

/// A Validity (RFC 5280 section 4.1.2.5).
#[derive(Drop)]
pub struct Validity<'a> {
    /// The first moment of the time.
    pub not_before: Time<'a>,
    /// The last moment of the time.
    pub not_after: Time<'a>,
}

impl<'a> Record for Validity<'a> {
    type Parts = (Time<'a>, Time<'a>);

    ghost parts = { λ value. (value.not_before, value.not_after) };

    ghost of_parts = { λ pairs. record { not_before = pairs.0; not_after = pairs.1 } };

    fn from_parts((not_before, not_after): Self::Parts) -> Self {
        Validity {
            not_before,
            not_after,
        }
    }

    fn to_parts(&self) -> Self::Parts {
        (reborrow(&self.not_before), reborrow(&self.not_after))
    }

    ghost same = { λ _. refl };
}

impl Distinct for Validity<'_> {
    ghost distinct = { refl };
}

impl Part for Validity<'_> {
    ghost bytes = { λ value. element_of 0x30 (validity_content value) };

    ghost and_then = { element_fault 0x30 validity_fault };

    ghost tags = { one_tag 0x30 };

    ghost begins = { λ value. element_begins 0x30 (validity_content value) };
}

impl EncodePart for Validity<'_> {
    fn part_len(&self) -> Result<Length> {
        component_len(self)
    }

    fn known_part_len(&self) -> usize {
        known_encoded_len(self)
    }

    fn prepend_part(&self, writer: &mut BackWriter) {
        writer.prepend_element(self);
    }
}

impl<'a> DecodePart<'a> for Validity<'a> {
    fn decode_part(reader: &mut SliceReader<'a>) -> Result<Self> {
        read_part(reader)
    }
}

impl<'a> ReadInPlace<'a> for Validity<'a> {
    fn empty() -> Self {
        Validity {
            not_before: Time::empty(),
            not_after: Time::empty(),
        }
    }

    fn read_in_place(&mut self, reader: &mut SliceReader<'a>) -> Result<()> {
        read_record(self, reader)
    }
}

impl UniquePart for Validity<'_> {
    fn bytes_injective()
        ensures { AreDistinct (one_tag 0x30) (λ value. element_of 0x30 (validity_content value)) }
    {
        Required::<Validity>::bytes_injective();
    }
}

/// Returns the time again. It borrows what this one borrows.
fn reborrow<'a>(time: &Time<'a>) -> Time<'a>
    ensures { result ≡ time.now }
{
    match time {
        Choice::First(time) => Choice::First(Required(time.0.reborrow())),
        Choice::Second(time) => Choice::Second(Required(time.0.reborrow())),
    }
}

//! Components of a TBSCertificate in a row, as parts by themselves. So its pairs are few, and the
//! proofs of what it inherits as a record are short.
ghost use Rattle.sec1_der.specs.Parts.{AreDistinct, one_tag};
ghost use Rattle.pkix.specs.TbsParts.{additions_and_then, additions_begin, additions_bytes};
ghost use Rattle.pkix.specs.TbsParts.{additions_tags, names_and_then, names_begin, names_bytes};

use crate::in_place::{ReadInPlace, read_part};
use crate::{Extension, Name, Validity};
use der_types::{Bits, Implicit, SequenceOf};
use sec1_der::{
    BackWriter, Context3, DecodePart, EncodePart, Explicit, Length, Optional, Part, Primitive1,
    Primitive2, Required, Result, SliceReader, UniquePart,
};
use std::marker::Model;

/// The issuer, the time in which the certificate is valid, and the subject.
type NameParts<'a> = (Required<Name<'a>>, (Validity<'a>, Required<Name<'a>>));

/// The unique identifiers and the extensions.
type AdditionParts<'a> = (
    (
        Optional<Implicit<Primitive1, Bits<'a>>>,
        Optional<Implicit<Primitive2, Bits<'a>>>,
    ),
    Optional<Explicit<Context3, SequenceOf<'a, Extension<'a>>>>,
);

/// The issuer, the time in which the certificate is valid, and the subject. A contract sees the
/// pairs.
#[derive(Drop)]
pub struct Names<'a>(pub NameParts<'a>);

impl<'a> Model for Names<'a> {
    ghost use Rattle.pkix.specs.TbsParts.{Names};

    ghost Value = { Names };

    ghost view = { λ names. names.0 };

    ghost inverse = { λ pairs. record { 0 = pairs } };
}

impl Part for Names<'_> {
    ghost bytes = { names_bytes };

    ghost and_then = { names_and_then };

    ghost tags = { one_tag 0x30 };

    ghost begins = { names_begin };
}

impl EncodePart for Names<'_> {
    fn part_len(&self) -> Result<Length> {
        self.0.part_len()
    }

    fn known_part_len(&self) -> usize {
        self.0.known_part_len()
    }

    fn prepend_part(&self, writer: &mut BackWriter) {
        self.0.prepend_part(writer);
    }
}

impl<'a> DecodePart<'a> for Names<'a> {
    fn decode_part(reader: &mut SliceReader<'a>) -> Result<Self> {
        read_part(reader)
    }
}

impl<'a> ReadInPlace<'a> for Names<'a> {
    fn empty() -> Self {
        Names(NameParts::empty())
    }

    fn read_in_place(&mut self, reader: &mut SliceReader<'a>) -> Result<()> {
        self.0.read_in_place(reader)
    }
}

impl UniquePart for Names<'_> {
    fn bytes_injective()
        ensures { AreDistinct (one_tag 0x30) names_bytes }
    {
        NameParts::bytes_injective();
    }
}

/// The unique identifiers and the extensions. A contract sees the pairs.
#[derive(Drop)]
pub struct Additions<'a>(pub AdditionParts<'a>);

impl<'a> Model for Additions<'a> {
    ghost use Rattle.pkix.specs.TbsParts.{Additions};

    ghost Value = { Additions };

    ghost view = { λ additions. additions.0 };

    ghost inverse = { λ pairs. record { 0 = pairs } };
}

impl Part for Additions<'_> {
    ghost bytes = { additions_bytes };

    ghost and_then = { additions_and_then };

    ghost tags = { additions_tags };

    ghost begins = { additions_begin };
}

impl EncodePart for Additions<'_> {
    fn part_len(&self) -> Result<Length> {
        self.0.part_len()
    }

    fn known_part_len(&self) -> usize {
        self.0.known_part_len()
    }

    fn prepend_part(&self, writer: &mut BackWriter) {
        self.0.prepend_part(writer);
    }
}

impl<'a> DecodePart<'a> for Additions<'a> {
    fn decode_part(reader: &mut SliceReader<'a>) -> Result<Self> {
        read_part(reader)
    }
}

impl<'a> ReadInPlace<'a> for Additions<'a> {
    fn empty() -> Self {
        Additions(AdditionParts::empty())
    }

    fn read_in_place(&mut self, reader: &mut SliceReader<'a>) -> Result<()> {
        self.0.read_in_place(reader)
    }
}

impl UniquePart for Additions<'_> {
    fn bytes_injective()
        ensures { AreDistinct additions_tags additions_bytes }
    {
        AdditionParts::bytes_injective();
    }
}

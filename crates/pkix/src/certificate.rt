//! Certificates.
ghost use Rattle.std.specs.Prelude.{refl};
ghost use Rattle.sec1_der.specs.Elements.{element_of};
ghost use Rattle.sec1_der.specs.Parts.{AreDistinct, one_tag};
ghost use Rattle.sec1_der.specs.PartLaws.{element_begins};
ghost use Rattle.sec1_der.specs.Faults.{element_fault};
ghost use Rattle.pkix.specs.Records.{certificate_content, certificate_fault};
ghost use Rattle.sec1_der.specs.Readers.{ReadsElement};
ghost use Rattle.pkix.specs.Records.{tbs_content, tbs_fault};

use crate::in_place::{ReadInPlace, read_part, read_record, read_whole};
use crate::tbs_parts::{Additions, Names};
use crate::{AlgorithmIdentifier, Extension, LaterVersion, Name, SubjectPublicKeyInfo, Validity};
use der_types::{Bits, Implicit, Integer, SequenceOf};
use sec1_der::{
    BackWriter, Context0, Context3, DecodePart, Distinct, EncodePart, Explicit, Length, Optional,
    Part, Primitive1, Primitive2, Record, Required, Result, SliceReader, UniquePart, component_len,
    known_encoded_len,
};

/// A TBSCertificate (RFC 5280 section 4.1.2).
#[derive(Drop)]
pub struct TbsCertificate<'a> {
    /// The version, if it isn't v1.
    pub version: Option<Explicit<Context0, LaterVersion>>,
    /// The serial number.
    pub serial_number: Integer<'a>,
    /// The algorithm of the signature.
    pub signature: AlgorithmIdentifier<'a>,
    /// The name of the issuer.
    pub issuer: Name<'a>,
    /// The time in which the certificate is valid.
    pub validity: Validity<'a>,
    /// The name of the subject.
    pub subject: Name<'a>,
    /// The public key of the subject.
    pub public_key: SubjectPublicKeyInfo<'a>,
    /// The unique identifier of the issuer, if present.
    pub issuer_unique_id: Option<Implicit<Primitive1, Bits<'a>>>,
    /// The unique identifier of the subject, if present.
    pub subject_unique_id: Option<Implicit<Primitive2, Bits<'a>>>,
    /// The extensions, if present.
    pub extensions: Option<Explicit<Context3, SequenceOf<'a, Extension<'a>>>>,
}

impl<'a> Record for TbsCertificate<'a> {
    type Parts = (
        (
            Optional<Explicit<Context0, LaterVersion>>,
            (Required<Integer<'a>>, AlgorithmIdentifier<'a>),
        ),
        (Names<'a>, (SubjectPublicKeyInfo<'a>, Additions<'a>)),
    );

    ghost parts = { λ value. (
      (value.version, (value.serial_number, value.signature)),
      (
        (value.issuer, (value.validity, value.subject)),
        (value.public_key, ((value.issuer_unique_id, value.subject_unique_id), value.extensions)),
      ),
    ) };

    ghost of_parts = { λ pairs. record {
      version = pairs.0.0;
      serial_number = pairs.0.1.0;
      signature = pairs.0.1.1;
      issuer = pairs.1.0.0;
      validity = pairs.1.0.1.0;
      subject = pairs.1.0.1.1;
      public_key = pairs.1.1.0;
      issuer_unique_id = pairs.1.1.1.0.0;
      subject_unique_id = pairs.1.1.1.0.1;
      extensions = pairs.1.1.1.1;
    } };

    fn from_parts(pairs: Self::Parts) -> Self {
        let ((version, (serial_number, signature)), (names, rest)) = pairs;
        let (issuer, (validity, subject)) = names.0;
        let (public_key, additions) = rest;
        let ((issuer_unique_id, subject_unique_id), extensions) = additions.0;
        TbsCertificate {
            version: version.0,
            serial_number: serial_number.0,
            signature,
            issuer: issuer.0,
            validity,
            subject: subject.0,
            public_key,
            issuer_unique_id: issuer_unique_id.0,
            subject_unique_id: subject_unique_id.0,
            extensions: extensions.0,
        }
    }

    fn to_parts(&self) -> Self::Parts {
        let version = match &self.version {
            Some(version) => Some(Explicit::new(version.value)),
            None => None,
        };
        let issuer_unique_id = match &self.issuer_unique_id {
            Some(bits) => Some(Implicit::new(bits.value.reborrow())),
            None => None,
        };
        let subject_unique_id = match &self.subject_unique_id {
            Some(bits) => Some(Implicit::new(bits.value.reborrow())),
            None => None,
        };
        let extensions = match &self.extensions {
            Some(extensions) => Some(Explicit::new(extensions.value.reborrow())),
            None => None,
        };
        (
            (
                Optional(version),
                (
                    Required(self.serial_number.reborrow()),
                    self.signature.reborrow(),
                ),
            ),
            (
                Names((
                    Required(self.issuer.reborrow()),
                    (self.validity.reborrow(), Required(self.subject.reborrow())),
                )),
                (
                    self.public_key.reborrow(),
                    Additions((
                        (Optional(issuer_unique_id), Optional(subject_unique_id)),
                        Optional(extensions),
                    )),
                ),
            ),
        )
    }

    ghost same = { λ _. refl };
}

impl Distinct for TbsCertificate<'_> {
    ghost distinct = { refl };
}

impl Part for TbsCertificate<'_> {
    ghost bytes = { λ value. element_of 0x30 (tbs_content value) };

    ghost and_then = { element_fault 0x30 tbs_fault };

    ghost tags = { one_tag 0x30 };

    ghost begins = { λ value. element_begins 0x30 (tbs_content value) };
}

impl EncodePart for TbsCertificate<'_> {
    fn part_len(&self) -> Result<Length> {
        component_len(self)
    }

    fn known_part_len(&self) -> usize {
        known_encoded_len(self)
    }

    fn prepend_part(&self, writer: &mut BackWriter) {
        writer.prepend_element(self);
    }
}

impl<'a> DecodePart<'a> for TbsCertificate<'a> {
    fn decode_part(reader: &mut SliceReader<'a>) -> Result<Self> {
        read_part(reader)
    }
}

impl<'a> ReadInPlace<'a> for TbsCertificate<'a> {
    fn empty() -> Self {
        TbsCertificate {
            version: None,
            serial_number: Integer::default(),
            signature: AlgorithmIdentifier::empty(),
            issuer: Name::default(),
            validity: Validity::empty(),
            subject: Name::default(),
            public_key: SubjectPublicKeyInfo::empty(),
            issuer_unique_id: None,
            subject_unique_id: None,
            extensions: None,
        }
    }

    fn read_in_place(&mut self, reader: &mut SliceReader<'a>) -> Result<()> {
        read_record(self, reader)
    }
}

impl UniquePart for TbsCertificate<'_> {
    fn bytes_injective()
        ensures { AreDistinct (one_tag 0x30) (λ value. element_of 0x30 (tbs_content value)) }
    {
        Required::<TbsCertificate>::bytes_injective();
    }
}

/// A Certificate (RFC 5280 section 4.1).
#[derive(Drop)]
pub struct Certificate<'a> {
    /// What the signature is over.
    pub tbs_certificate: TbsCertificate<'a>,
    /// The algorithm of the signature.
    pub signature_algorithm: AlgorithmIdentifier<'a>,
    /// The signature.
    pub signature: Bits<'a>,
}

impl<'a> Record for Certificate<'a> {
    type Parts = (
        TbsCertificate<'a>,
        (AlgorithmIdentifier<'a>, Required<Bits<'a>>),
    );

    ghost parts = { λ value.
        (value.tbs_certificate, (value.signature_algorithm, value.signature)) };

    ghost of_parts = { λ pairs. record {
      tbs_certificate = pairs.0;
      signature_algorithm = pairs.1.0;
      signature = pairs.1.1;
    } };

    fn from_parts((tbs_certificate, (signature_algorithm, signature)): Self::Parts) -> Self {
        Certificate {
            tbs_certificate,
            signature_algorithm,
            signature: signature.0,
        }
    }

    fn to_parts(&self) -> Self::Parts {
        (
            self.tbs_certificate.reborrow(),
            (
                self.signature_algorithm.reborrow(),
                Required(self.signature.reborrow()),
            ),
        )
    }

    ghost same = { λ _. refl };
}

impl Distinct for Certificate<'_> {
    ghost distinct = { refl };
}

impl<'a> Certificate<'a> {
    /// Reads a certificate from its whole DER encoding.
    ///
    /// # Errors
    ///
    /// Those of [`read_der`](sec1_der::read_der).
    pub fn from_der(bytes: &'a [u8]) -> Result<Certificate<'a>>
        ensures { ReadsElement 0x30 certificate_content certificate_fault bytes.now result }
    {
        let mut parts = <Self as Record>::Parts::empty();
        read_whole::<Self>(&mut parts, bytes)?;
        Ok(Self::from_parts(parts))
    }
}

//! The first element of what one holds: of a certificate's name or extensions, and of a SEQUENCE OF
//! in a record of one's own. What is held need not be known to have been read.
ghost use Rattle.std.specs.Prelude.{◌≡◌, ◌↔◌, ◌++◌, [], ℕ, List, Some, None, refl};
ghost use Rattle.std.specs.Prelude.{IfOk, IfSome, IfNone, IsSome, IsSomeAnd, IsOkAnd};
ghost use Rattle.pkix.specs.Records.{attribute_content, attribute_fault};
ghost use Rattle.pkix.specs.Records.{certificate_content, certificate_fault};
ghost use Rattle.pkix.specs.Records.{extension_content, extension_fault};
ghost use Rattle.pkix.specs.declared.certificate.Certificate.{Certificate};
ghost use Rattle.der_types.specs.Contents.{content_if};
ghost use Rattle.der_types.specs.Sequences.{sequence_fault, set_fault, set_of};
ghost use Rattle.sec1.specs.Der.{HasFault, element_fault, element_of, end_fault, no_fault};
ghost use Rattle.std.specs.Str.{is_utf8};

use der_types::{SequenceOf, Utf8String};
use pkix::{AttributeTypeAndValue, Certificate, Extension, RelativeDistinguishedName};
use sec1::der::Result;
use sec1_der::{Distinct, Record, Required};

/// Returns the first set of attributes of the subject's name, if there is one.
pub fn first_names<'a>(certificate: &Certificate<'a>) -> Option<RelativeDistinguishedName<'a>>
    ensures found { IfSome result (λ names. IsSomeAnd
        (element_of 0x31 (set_of 0x30 attribute_fault names)) (λ bytes. (rest : List ℕ)
        × (certificate.now.tbs_certificate.subject ≡ bytes ++ rest))) }
    ensures exact { IsSome result ↔ (element_fault 0x31 (set_fault 0x30 attribute_fault) no_fault
        certificate.now.tbs_certificate.subject ≡ None) }
{
    certificate.tbs_certificate.subject.elements().next()
}

/// Returns the first attribute of a set of a name, if there is one.
pub fn first_attribute<'a>(
    names: &RelativeDistinguishedName<'a>,
) -> Option<AttributeTypeAndValue<'a>>
    ensures found { IfSome result (λ first. IsSomeAnd (element_of 0x30 (attribute_content first))
        (λ bytes. (rest : List ℕ) × (names.now ≡ bytes ++ rest))) }
{
    names.elements().next()
}

/// Returns the first extension, if there is one.
pub fn first_extension<'a>(certificate: &Certificate<'a>) -> Option<Extension<'a>>
    ensures found { IfSome result (λ first.
        IsSomeAnd certificate.now.tbs_certificate.extensions (λ extensions.
        IsSomeAnd (element_of 0x30 (extension_content first)) (λ bytes. (rest : List ℕ)
        × (extensions ≡ bytes ++ rest)))) }
    ensures none { IfNone result (IfSome certificate.now.tbs_certificate.extensions
        (λ extensions. sequence_fault 0x30 extension_fault extensions ≡ None
        → extensions ≡ [])) }
{
    match &certificate.tbs_certificate.extensions {
        Some(extensions) => extensions.value.elements().next(),
        None => None,
    }
}

/// Reads a certificate, and returns its first extension, if there is one.
///
/// # Errors
///
/// Those of [`Certificate::from_der`].
pub fn read_first_extension(bytes: &[u8]) -> Result<Option<Extension<'_>>>
    ensures found { IfOk result (λ found. IfSome found (λ first. (certificate : Certificate)
        × (element_of 0x30 (certificate_content certificate) ≡ Some bytes.now)
        × IsSomeAnd certificate.tbs_certificate.extensions (λ extensions.
        IsSomeAnd (element_of 0x30 (extension_content first)) (λ encoded. (rest : List ℕ)
        × (extensions ≡ encoded ++ rest))))) }
    ensures kind { HasFault result (element_fault 0x30 certificate_fault end_fault bytes.now) }
{
    let certificate = Certificate::from_der(bytes)?;
    Ok(first_extension(&certificate))
}

/// A row of labels.
#[derive(Drop)]
pub struct Labels<'a> {
    /// The labels.
    pub labels: SequenceOf<'a, Utf8String<'a>>,
}

impl<'a> Record for Labels<'a> {
    type Parts = Required<SequenceOf<'a, Utf8String<'a>>>;

    ghost parts = { λ value. value.labels };

    ghost of_parts = { λ labels. record { labels = labels } };

    fn from_parts(labels: Self::Parts) -> Self {
        Labels { labels: labels.0 }
    }

    fn to_parts(&self) -> Self::Parts {
        Required(self.labels.reborrow())
    }

    ghost same = { λ _. refl };
}

impl Distinct for Labels<'_> {
    ghost distinct = { refl };
}

/// Returns the first label, if there is one.
pub fn first_label<'a>(labels: &Labels<'a>) -> Option<Utf8String<'a>>
    ensures found { IfSome result (λ first. IsSomeAnd (element_of 0x0C (content_if is_utf8 first))
        (λ bytes. (rest : List ℕ) × (labels.now.labels ≡ bytes ++ rest))) }
{
    labels.labels.elements().next()
}
